//! The lines of the value-change text, each put as one piece (IEEE 1364-2005, section 18.2).
ghost use Rattle.std.specs.Prelude.{◌≡◌, ℕ, ◌+◌, ◌-◌, ◌<◌, ◌≤◌, ◌++◌, ◌∷◌, [], false, drop, length};
ghost use Rattle.std.specs.Prelude.{is_some, if◌then◌else◌};
ghost use Rattle.std.specs.Fmt.{digits};
ghost use Rattle.pio_edge.specs.Edge.{Takes, PutCounts};
ghost use Rattle.vcd_trace.specs.Characters.{letter_b, newline, tilde};
ghost use Rattle.vcd_trace.specs.ClockText.{four_digits};
ghost use Rattle.vcd_trace.specs.VcdText.{clock_line, bit_line, vector_line, identifier};

use crate::variable::SECOND;
use itoa::write_digits;
use pio_edge::{Sink, SinkFailed};

/// The line of a clock.
#[inline(always)]
pub(crate) fn put_clock<S: Sink>(sink: &mut S, clock: u64) -> Result<(), SinkFailed>
    ensures bytes { Takes (S.taken sink.old) (clock_line clock) (S.taken sink.new) result }
    ensures cause { PutCounts (S.faults sink.old) (S.faults sink.new) result }
{
    let mut line = [0; CLOCK_ROOM];
    let start = write_clock(&mut line, clock);
    sink.put(&line[start..])
}

/// What the end adds to a text: the line of its clock, where something was told.
pub(crate) fn put_end<S: Sink, V>(
    sink: &mut S,
    clock: u64,
    last: &Option<V>,
) -> Result<(), SinkFailed>
    ensures bytes { Takes (S.taken sink.old)
        (if is_some last.now then clock_line clock else []) (S.taken sink.new) result }
    ensures cause { PutCounts (S.faults sink.old) (S.faults sink.new) result }
{
    match last {
        None => Ok(()),
        Some(_) => put_clock(sink, clock),
    }
}

/// Room for `#`, the 20 digits of the greatest number and the newline.
pub(crate) const CLOCK_ROOM: usize = 22;

/// Writes the line of a clock up to the end of the room, and says where it begins.
#[inline(always)]
pub(crate) fn write_clock(line: &mut [u8; CLOCK_ROOM], clock: u64) -> usize
    ensures within { result ≤ CLOCK_ROOM }
    ensures text { drop result line.new ≡ clock_line clock }
{
    line[CLOCK_ROOM - 1] = b'\n';
    let start = write_digits(clock, line, CLOCK_ROOM - 1) - 1;
    line[start] = b'#';
    start
}

/// The line of a value of one bit.
// Put in place, where the number's scope is known.
#[inline(always)]
pub(crate) fn put_bit<S: Sink>(sink: &mut S, id: u8, value: u8) -> Result<(), SinkFailed>
    requires { value < 2 }
    ensures bytes { Takes (S.taken sink.old) (bit_line id value) (S.taken sink.new) result }
    ensures cause { PutCounts (S.faults sink.old) (S.faults sink.new) result }
{
    if id < SECOND {
        sink.put(&[b'0' + value, id, b'\n'])
    } else {
        sink.put(&[b'0' + value, b'~', id - SECOND, b'\n'])
    }
}

/// Writes the line of a value of one bit up to a place, and says where it begins.
#[inline(always)]
pub(crate) fn write_bit(line: &mut [u8], end: usize, id: u8, value: u8) -> usize
    requires value { value < 2 }
    requires after { 4 ≤ end }
    requires before { end ≤ length line.now }
    ensures after { end ≤ result + 4 }
    ensures before { result ≤ end }
    ensures text { drop result line.new ≡ bit_line id value ++ drop end line.old }
{
    write_name(line, end, b'0' + value, id)
}

/// The line of a value of more bits.
pub(crate) fn put_vector<S: Sink>(sink: &mut S, id: u8, value: u32) -> Result<(), SinkFailed>
    ensures bytes { Takes (S.taken sink.old) (vector_line id value) (S.taken sink.new) result }
    ensures cause { PutCounts (S.faults sink.old) (S.faults sink.new) result }
{
    let mut line = [0; LINE_ROOM];
    let start = write_vector(&mut line, LINE_ROOM, id, value);
    sink.put(&line[start..])
}

/// Room for `b`, the 32 digits of a word, a blank, the identifier of up to two characters and the newline.
pub(crate) const LINE_ROOM: usize = 37;

/// Writes the line of a value up to a place, from its last character on, and says where it begins.
#[inline(always)]
pub(crate) fn write_vector(line: &mut [u8], end: usize, id: u8, value: u32) -> usize
    requires after { LINE_ROOM ≤ end }
    requires before { end ≤ length line.now }
    ensures after { end ≤ result + LINE_ROOM }
    ensures before { result ≤ end }
    ensures text { drop result line.new ≡ vector_line id value ++ drop end line.old }
{
    let name = write_name(line, end, b' ', id);
    write_bits(line, name, value)
}

// Writes a character, the identifier and the newline up to a place, and says where they begin.
#[inline(always)]
fn write_name(line: &mut [u8], end: usize, first: u8, id: u8) -> usize
    requires after { 4 ≤ end }
    requires before { end ≤ length line.now }
    ensures after { end ≤ result + 4 }
    ensures before { result ≤ end }
    ensures text { drop result line.new ≡ first ∷ (identifier id ++ newline ∷ drop end line.old) }
{
    if id < SECOND {
        write_character(line, end, first, id);
        end - 3
    } else {
        write_two_characters(line, end, first, id - SECOND);
        end - 4
    }
}

// The identifier of a first scope.
#[inline(always)]
fn write_character(line: &mut [u8], end: usize, first: u8, id: u8)
    requires after { 3 ≤ end }
    requires before { end ≤ length line.now }
    ensures { drop (end - 3) line.new ≡ first ∷ id ∷ newline ∷ drop end line.old }
{
    line[end - 1] = b'\n';
    line[end - 2] = id;
    line[end - 3] = first;
}

// That of a second scope.
#[inline(always)]
fn write_two_characters(line: &mut [u8], end: usize, first: u8, id: u8)
    requires after { 4 ≤ end }
    requires before { end ≤ length line.now }
    ensures { drop (end - 4) line.new ≡ first ∷ tilde ∷ id ∷ newline ∷ drop end line.old }
{
    line[end - 1] = b'\n';
    line[end - 2] = id;
    line[end - 3] = b'~';
    line[end - 4] = first;
}

// Writes `b` and the digits up to a place, from the last ones on, and says where they begin.
#[inline(always)]
fn write_bits(line: &mut [u8], end: usize, value: u32) -> usize
    requires after { 33 ≤ end }
    requires before { end ≤ length line.now }
    ensures after { end ≤ result + 33 }
    ensures before { result ≤ end }
    ensures text { drop result line.new ≡ letter_b ∷ (digits 2 false value ++ drop end line.old) }
{
    let mut start = end;
    let mut rest = value;
    while rest >= 16 {
        write_four(line, start, (rest % 16) as u8);
        start -= 4;
        rest /= 16;
    }
    write_four(line, start, rest as u8);
    start -= usize::from(COUNTS[rest as usize]) + 1;
    line[start] = b'b';
    start
}

// Writes the four binary digits of a number up to a place.
#[inline(always)]
fn write_four(line: &mut [u8], end: usize, number: u8)
    requires number { number < 16 }
    requires after { 4 ≤ end }
    requires before { end ≤ length line.now }
    ensures digits { drop (end - 4) line.new ≡ four_digits number ++ drop end line.old }
    ensures size { length line.new ≡ length line.old }
{
    let first = usize::from(number) * 4;
    line[end - 1] = FOURS[first + 3];
    line[end - 2] = FOURS[first + 2];
    line[end - 3] = FOURS[first + 1];
    line[end - 4] = FOURS[first];
}

/// The four binary digits of each number below 16.
static FOURS: [u8; 64] = *b"0000000100100011010001010110011110001001101010111100110111101111";

/// How many of them it has without leading zeros.
static COUNTS: [u8; 16] = [1, 1, 2, 2, 3, 3, 3, 3, 4, 4, 4, 4, 4, 4, 4, 4];
