//! What an instruction does when it finishes.
ghost use Rattle.std.specs.Prelude.{◌≡◌};
ghost use Rattle.span_step.specs.Outcomes as spec;

use crate::context::Context;
use std::marker::Model;

/// What an instruction does to a context, apart from side-set. The type keeps the address below 32.
#[derive(Clone, Copy, Default)]
pub(crate) struct ContextOutcome {
    /// The address that it goes to, if it isn't the next one.
    pub(crate) jump: Option<u8>,
    /// X after it, where it is known.
    pub(crate) x: Option<u16>,
    /// Y after it, where it is known.
    pub(crate) y: Option<u16>,
    /// What it writes to the from-pin's watched signal, if anything.
    pub(crate) from: Option<bool>,
    /// What it writes to the to-pin's.
    pub(crate) to: Option<bool>,
}

impl Model for ContextOutcome {
    ghost use Rattle.std.specs.Prelude.{IsTrue};
    ghost use Rattle.span_step.specs.Contexts.{is_small};
    ghost use Rattle.span_step.specs.Outcomes as spec;

    ghost Value = { spec.ContextOutcome };

    ghost view = { λ o. record {
      jump = o.jump;
      x = o.x;
      y = o.y;
      from = o.from;
      to = o.to;
    } };

    ghost invariant = { λ o. IsTrue (is_small 31 o.jump) };

    ghost inverse = { λ o. record {
      jump = o.jump;
      x = o.x;
      y = o.y;
      from = o.from;
      to = o.to;
    } };
}

impl ContextOutcome {
    /// It goes on, and changes nothing that the checker knows.
    pub(crate) fn nothing_done(context: &Context) -> ContextOutcome
        ensures { result ≡ spec.nothing_done context.now }
    {
        ContextOutcome {
            jump: None,
            x: context.x,
            y: context.y,
            from: None,
            to: None,
        }
    }
}
