//! What a step finds.
ghost use Rattle.std.specs.Prelude.{◌≡◌, ◌<◌, ◌≤◌, ◌++◌, ◌∷◌, [], length};
ghost use Rattle.span_step.specs.Narrowing as spec;

use crate::ages::Ages;
use crate::cause::Causes;
use crate::context::Context;
use crate::narrowing::Narrowing;
use crate::nexts::Nexts;
use arrayvec::ArrayVec;
use std::marker::Model;

/// A context that can come next.
#[derive(Clone, Copy, Default)]
pub struct Next {
    pub context: Context,
    pub ages: Ages,
    /// The ages before live on in these: no to-event came on the way, and nothing of which the span doesn't speak.
    pub passes: bool,
}

/// Where the courses of a row end, at most eight, one for each course of each outcome, with what the instruction leaves in X and Y.
#[derive(Drop)]
pub struct Ends {
    items: ArrayVec<Next, 8>,
}

impl Model for Ends {
    ghost use Rattle.std.specs.Prelude.{List};
    ghost use Rattle.span_step.specs.declared.stepped.Next.{Next};

    ghost Value = { List Next };

    ghost view = { λ n. n.items.items };
}

impl Ends {
    /// None yet.
    pub(crate) fn new() -> Ends
        ensures { result ≡ [] }
    {
        Ends {
            items: ArrayVec::new(),
        }
    }

    /// One more.
    pub(crate) fn push(&mut self, next: Next)
        requires { length self.old < 8 }
        ensures { self.new ≡ self.old ++ next ∷ [] }
    {
        self.items.push(next);
    }

    /// In order: by outcome, and in it the prompt course first.
    pub fn as_slice(&self) -> &[Next]
        ensures value { result.now ≡ self.now }
        ensures fits { length result.now ≤ 8 }
    {
        self.items.as_slice()
    }
}

/// What a step finds: where its courses end, what can come next there, and why the row is bad.
#[derive(Drop)]
pub struct Stepped {
    pub ends: Ends,
    pub narrowing: Narrowing,
    pub causes: Causes,
    /// A from-event comes.
    pub from_edge: bool,
    /// A to-event comes while a from-event of an earlier tick is open.
    pub closes: bool,
}

impl Stepped {
    /// Nothing yet.
    pub fn none() -> Stepped
        ensures { result.ends ≡ [] }
    {
        Stepped {
            ends: Ends::new(),
            narrowing: Narrowing::wide(),
            causes: Causes::none(),
            from_edge: false,
            closes: false,
        }
    }

    /// What can come next, in order: by the ends, and of one end by X and then by Y.
    #[tactic(auto, unfolding(crate::specs::Narrowing::nexts_of))]
    pub fn nexts(&self) -> Nexts<'_>
        ensures { result ≡ spec.nexts_of self.now }
    {
        Nexts::of(self.ends.as_slice(), self.narrowing)
    }
}
