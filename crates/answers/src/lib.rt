//! How a returned result relates to a defined one, once for every reader: the value, the fault, or want of memory.
#![tactic(auto)]
