//! The line of a clock that is kept from clock to clock: as long as no digit but the last two changes, only those are
//! written.
ghost use Rattle.std.specs.Prelude.{◌≡◌, ◌+◌, ◌/◌, ◌%◌, ◌<◌, ◌≤◌, ◌++◌, true, drop, length};
ghost use Rattle.pio_edge.specs.Edge.{Takes, PutCounts};
ghost use Rattle.vcd_trace.specs.ClockText.{is_of};
ghost use Rattle.vcd_trace.specs.VcdText.{clock_line};

use crate::line::{CLOCK_ROOM, put_clock, write_clock};
use pio_edge::{Sink, SinkFailed};
use std::marker::Model;

/// The line of some clock that is at least 100, up to the end of its room.
#[derive(Drop)]
pub(crate) struct ClockLine {
    room: [u8; CLOCK_ROOM],
    start: usize,
    // The clock with 0 for its last two digits.
    hundred: u64,
}

impl Model for ClockLine {
    ghost use Rattle.std.specs.Prelude.{drop};
    ghost use Rattle.vcd_trace.specs.ClockText.{IsKept, Line};

    ghost Value = { Line };

    ghost view = { λ l. record { text = drop l.start l.room; hundred = l.hundred } };

    ghost invariant = { λ l. IsKept l.room l.start l.hundred };
}

impl ClockLine {
    /// The line of clock 100.
    pub(crate) fn new() -> Self {
        let mut room = [0; CLOCK_ROOM];
        let start = write_clock(&mut room, 100);
        ClockLine {
            room,
            start,
            hundred: 100,
        }
    }

    /// Puts the line of a clock.
    #[inline(always)]
    pub(crate) fn put<S: Sink>(&mut self, sink: &mut S, clock: u64) -> Result<(), SinkFailed>
        ensures bytes { Takes (S.taken sink.old) (clock_line clock) (S.taken sink.new) result }
        ensures cause { PutCounts (S.faults sink.old) (S.faults sink.new) result }
    {
        if self.turn(clock) {
            return sink.put(&self.room[self.start..]);
        }
        self.put_anew(sink, clock)
    }

    /// Writes it up to a place of a room, and says where it begins.
    #[inline(always)]
    pub(crate) fn write(&self, room: &mut [u8], end: usize) -> usize
        requires after { CLOCK_ROOM ≤ end }
        requires before { end ≤ length room.now }
        ensures before { result ≤ end }
        ensures text { drop result room.new ≡ self.now.text ++ drop end room.old }
    {
        // A copy of its own, which overlaps nothing, is written at once.
        let line = self.room;
        room[end - CLOCK_ROOM..end].copy_from_slice(&line);
        end - CLOCK_ROOM + self.start
    }

    /// Writes the line of a clock where the last two digits alone are other ones, and says whether it has.
    #[inline(always)]
    pub(crate) fn turn(&mut self, clock: u64) -> bool
        ensures turns { result ≡ is_of self.old.hundred clock }
        ensures text { result ≡ true → self.new.text ≡ clock_line clock }
    {
        if clock < self.hundred || clock - self.hundred >= 100 {
            return false;
        }
        let (tens, ones) = digits_of((clock - self.hundred) as u8);
        self.room[CLOCK_ROOM - 3] = tens;
        self.room[CLOCK_ROOM - 2] = ones;
        true
    }

    // Puts the line of a clock of another hundred. A call of its own, since most clocks are of the same one.
    #[inline(never)]
    fn put_anew<S: Sink>(&mut self, sink: &mut S, clock: u64) -> Result<(), SinkFailed>
        ensures bytes { Takes (S.taken sink.old) (clock_line clock) (S.taken sink.new) result }
        ensures cause { PutCounts (S.faults sink.old) (S.faults sink.new) result }
    {
        if clock < 100 {
            return put_clock(sink, clock);
        }
        self.start = write_clock(&mut self.room, clock);
        self.hundred = clock - clock % 100;
        sink.put(&self.room[self.start..])
    }
}

/// The two digits of each number below 100.
static PAIRS: [u8; 200] =
    *b"0001020304050607080910111213141516171819202122232425262728293031323334353637383940414243444546474849\
      5051525354555657585960616263646566676869707172737475767778798081828384858687888990919293949596979899";

// The digits of a number below 100.
#[inline(always)]
fn digits_of(number: u8) -> (u8, u8)
    requires { number < 100 }
    ensures { result ≡ (48 + number / 10, 48 + number % 10) }
{
    let place = usize::from(number) * 2;
    (PAIRS[place], PAIRS[place + 1])
}
