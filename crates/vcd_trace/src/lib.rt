//! Traces of a block, of what is inside it, or of two: who is told of the samples, and the value-change text (IEEE 1364-2005,
//! section 18).
#![tactic(auto)]

mod changes;
mod clock_line;
mod dump;
mod header;
mod inside_dump;
mod inside_header;
mod inside_laws;
mod inside_vcd;
mod laws;
mod line;
mod machine;
mod place_lines;
mod twin_laws;
mod twin_vcd;
mod usual;
mod variable;
mod vcd;

pub use inside_laws::{
    different_insides_have_lines, failing_early_leaves_a_first_part_of_what_is_inside,
    inside_text_only_grows, repeated_insides_add_nothing,
    the_text_of_what_is_inside_ends_with_its_length,
};
pub use inside_vcd::InsideVcd;
pub use laws::{
    different_samples_have_lines, failing_early_leaves_a_first_part, repeated_samples_add_nothing,
    same_values_have_no_lines, text_only_grows, the_text_ends_with_its_length,
    there_are_88_variables,
};
pub use sample_trace::{EdgeTrace, ListTrace, Trace, TraceFailed};
pub use twin_laws::{
    different_pairs_have_lines, each_variable_has_its_own_identifier,
    failing_early_leaves_a_first_part_of_two, repeated_pairs_add_nothing,
    the_text_of_two_ends_with_its_length, twin_text_only_grows,
};
pub use twin_vcd::TwinVcd;
pub use vcd::VcdTrace;
