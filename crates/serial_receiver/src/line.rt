//! What is heard on a line: the frame that is begun, and how more levels end it.
ghost use Rattle.std.specs.Prelude.{◌≡◌, ℕ, ◌-◌, ◌≤◌, Bool, List, [], ◌∷◌, length, replicate};
ghost use Rattle.serial_receiver.specs.Hearing.{Brings, Hears, HasReadBits, Opens, Proceeds, Stays, heard_of};

use crate::begun::Begun;
use crate::bits::middle;
use crate::frame::Frame;

/// A line after some clocks.
#[derive(Clone, Copy)]
pub(crate) struct LineSoFar {
    last: bool,
    frame: Option<Begun>,
}

/// How a frame is after more clocks.
#[derive(Clone, Copy)]
pub(crate) enum FrameProgress {
    Reads(Begun),
    Ends(Frame),
}

/// A line after more clocks, and the frame that ended in them.
#[derive(Clone, Copy)]
pub(crate) struct Heard {
    pub(crate) line: LineSoFar,
    pub(crate) frame: Option<Frame>,
}

impl LineSoFar {
    /// A line with this level before clock 0.
    pub(crate) fn new(level: bool) -> LineSoFar
        ensures { (bit : ℕ) → Hears bit level [] result }
    {
        LineSoFar {
            last: level,
            frame: None,
        }
    }

    /// The line where its level holds up to this clock.
    pub(crate) fn held(self, bit: u16, clock: u64) -> Heard
        requires { 2 ≤ bit }
        ensures { (before : Bool) (levels : List Bool) → Hears bit before levels self
            → length levels ≤ clock
            → Brings bit before levels (replicate (clock - length levels) self.last) result }
    {
        match self.frame {
            None => Heard {
                line: self,
                frame: None,
            },
            Some(begun) => heard_of(
                proceed(begun, bit, clock.saturating_sub(begun.start), self.last),
                self.last,
            ),
        }
    }

    /// The line after this clock, and the level after it.
    pub(crate) fn after(self, bit: u16, clock: u64, level: bool) -> Heard
        requires { 2 ≤ bit }
        ensures { (before : Bool) (levels : List Bool) → Hears bit before levels self
            → length levels ≡ clock → Brings bit before levels (level ∷ []) result }
    {
        match self.frame {
            None => Heard {
                line: LineSoFar {
                    last: level,
                    frame: opened(clock, self.last, level),
                },
                frame: None,
            },
            Some(begun) => heard_of(
                proceed(
                    begun,
                    bit,
                    clock.saturating_sub(begun.start).saturating_add(1),
                    level,
                ),
                level,
            ),
        }
    }
}

/// The frame that begins in this clock, where the level falls in it.
fn opened(clock: u64, before: bool, level: bool) -> Option<Begun>
    ensures { Opens clock before level result }
{
    if before && !level {
        Some(Begun {
            start: clock,
            known: 0,
            byte: 0,
        })
    } else {
        None
    }
}

/// What a frame's progress is to its line, whose last level is this one.
fn heard_of(progress: FrameProgress, last: bool) -> Heard
    ensures { result ≡ heard_of progress last }
{
    match progress {
        FrameProgress::Reads(begun) => Heard {
            line: LineSoFar {
                last,
                frame: Some(begun),
            },
            frame: None,
        },
        FrameProgress::Ends(frame) => Heard {
            line: LineSoFar { last, frame: None },
            frame: Some(frame),
        },
    }
}

/// The frame where this level holds up to so many clocks after its fall, from the last clock on that is known.
fn proceed(begun: Begun, bit: u16, reached: u64, level: bool) -> FrameProgress
    requires { 2 ≤ bit }
    ensures { (at : ℕ → Bool) (old : ℕ) → HasReadBits bit at old begun → old ≤ reached
        → Stays at old reached level → Proceeds bit at begun.start reached result }
{
    let mut begun = begun;
    loop {
        if reached <= middle(bit, begun.known) {
            return FrameProgress::Reads(begun);
        }
        if begun.known == 8 {
            return FrameProgress::Ends(Frame {
                start: begun.start,
                byte: begun.byte,
                good: level,
            });
        }
        begun = begun.with_bit(level);
    }
}
