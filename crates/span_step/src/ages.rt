//! The ages of a span's open from-events, in ticks.
ghost use Rattle.std.specs.Prelude.{◌≡◌, ◌<◌, ◌^◌};
ghost use Rattle.span_step.specs.Contexts as contexts;
ghost use Rattle.span_step.specs.Courses as spec;

/// How many ticks ago a from-event may have been to which no to-event came since.
#[derive(Clone, Copy, Default)]
pub enum Ages {
    /// No from-event is open.
    #[default]
    Empty,
    /// From the first to the second.
    Between(u32, u32),
}

impl Ages {
    /// Whether a from-event is open.
    pub fn is_open(self) -> bool
        ensures { result ≡ contexts.is_open self }
    {
        matches!(self, Ages::Between(..))
    }

    /// Open ages one tick on, up to one above this.
    pub(crate) fn older(self, most: u32) -> Ages
        requires { most < 2 ^ 24 }
        ensures { result ≡ spec.older most self }
    {
        match self {
            Ages::Empty => Ages::Empty,
            Ages::Between(lo, hi) => Ages::Between(lo.min(most) + 1, hi.min(most) + 1),
        }
    }

    /// Whether some age is above this.
    pub(crate) fn is_above(self, most: u32) -> bool
        ensures { result ≡ spec.is_above most self }
    {
        match self {
            Ages::Empty => false,
            Ages::Between(_, hi) => hi > most,
        }
    }

    /// Whether some age is below this.
    pub(crate) fn is_below(self, least: u32) -> bool
        ensures { result ≡ spec.is_below least self }
    {
        match self {
            Ages::Empty => false,
            Ages::Between(lo, _) => lo < least,
        }
    }

    /// The ages after a tick's events: a to-event empties them, then a from-event adds the age 0.
    pub(crate) fn after_events(self, closes: bool, opens: bool) -> Ages
        ensures { result ≡ spec.after_events closes opens self }
    {
        let left = if closes { Ages::Empty } else { self };
        if opens { left.with_fresh() } else { left }
    }

    /// With the age 0.
    fn with_fresh(self) -> Ages
        ensures { result ≡ spec.with_fresh self }
    {
        match self {
            Ages::Empty => Ages::Between(0, 0),
            Ages::Between(_, hi) => Ages::Between(0, hi),
        }
    }
}
