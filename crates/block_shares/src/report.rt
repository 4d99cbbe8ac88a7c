//! The report on what machines share, line by line.
ghost use Rattle.std.specs.Prelude.{◌≡◌, ◌<◌, ◌≤◌};
ghost use Rattle.pio_edge.specs.Edge.{Takes, PutCounts};
ghost use Rattle.block_shares.specs.Report as spec;

use crate::sharing::{feels, feels_any, shares};
use crate::touching::is_configured;
use itoa::Buffer;
use pin_matrix::Setup;
use pio_edge::{Sink, SinkFailed, put_all};

/// Puts the report on what the machines of a setup share: for each that is configured a line for each other machine
/// that it can feel something of, or one line that it is alone. It takes no memory.
#[tactic(auto, unfolding(crate::specs::Report::shares_text))]
pub fn put_shares<S: Sink>(sink: &mut S, setup: &Setup) -> Result<(), SinkFailed>
    ensures bytes { Takes (S.taken sink.old) (spec.shares_text setup.now) (S.taken sink.new) result }
    ensures cause { PutCounts (S.faults sink.old) (S.faults sink.new) result }
{
    put_machine(sink, setup, 0)?;
    put_machine(sink, setup, 1)?;
    put_machine(sink, setup, 2)?;
    put_machine(sink, setup, 3)
}

/// Puts the lines of a machine.
fn put_machine<S: Sink>(sink: &mut S, setup: &Setup, m: u8) -> Result<(), SinkFailed>
    requires { m < 4 }
    ensures bytes { Takes (S.taken sink.old) (spec.machine_text setup.now m) (S.taken sink.new) result }
    ensures cause { PutCounts (S.faults sink.old) (S.faults sink.new) result }
{
    if !is_configured(&setup.machines, m) {
        return Ok(());
    }
    if feels_any(setup, m) {
        put_all_shares(sink, setup, m)
    } else {
        put_alone(sink, m)
    }
}

/// Puts a line for each other machine that it can feel something of.
fn put_all_shares<S: Sink>(sink: &mut S, setup: &Setup, m: u8) -> Result<(), SinkFailed>
    requires { m < 4 }
    ensures bytes { Takes (S.taken sink.old) (spec.share_texts setup.now m) (S.taken sink.new) result }
    ensures cause { PutCounts (S.faults sink.old) (S.faults sink.new) result }
{
    put_share(sink, setup, m, 0)?;
    put_share(sink, setup, m, 1)?;
    put_share(sink, setup, m, 2)?;
    put_share(sink, setup, m, 3)
}

/// Puts the line of what machine `m` can feel of machine `k`, where it can.
fn put_share<S: Sink>(sink: &mut S, setup: &Setup, m: u8, k: u8) -> Result<(), SinkFailed>
    requires one { m < 4 }
    requires other { k < 4 }
    ensures bytes { Takes (S.taken sink.old) (spec.share_text setup.now m k) (S.taken sink.new) result }
    ensures cause { PutCounts (S.faults sink.old) (S.faults sink.new) result }
{
    if feels(setup, m, k) {
        put_line(sink, m, k, shares(setup, m, k))
    } else {
        Ok(())
    }
}

/// Puts the pieces of this line.
fn put_line<S: Sink>(sink: &mut S, m: u8, k: u8, felt: (u32, u8)) -> Result<(), SinkFailed>
    ensures bytes { Takes (S.taken sink.old) (spec.share_line m k felt) (S.taken sink.new) result }
    ensures cause { PutCounts (S.faults sink.old) (S.faults sink.new) result }
{
    let (mut one, mut other) = (Buffer::new(), Buffer::new());
    let flags = u32::from(felt.1);
    put_all(
        sink,
        &[
            b"machine ",
            one.format(m).as_bytes(),
            b" from ",
            other.format(k).as_bytes(),
            b" pins 0x",
            digit_at(felt.0, 28).as_bytes(),
            digit_at(felt.0, 24).as_bytes(),
            digit_at(felt.0, 20).as_bytes(),
            digit_at(felt.0, 16).as_bytes(),
            digit_at(felt.0, 12).as_bytes(),
            digit_at(felt.0, 8).as_bytes(),
            digit_at(felt.0, 4).as_bytes(),
            digit_at(felt.0, 0).as_bytes(),
            b" flags 0x",
            digit_at(flags, 4).as_bytes(),
            digit_at(flags, 0).as_bytes(),
            b"\n",
        ],
    )
}

/// Puts the line of a machine that can feel nothing of another.
fn put_alone<S: Sink>(sink: &mut S, m: u8) -> Result<(), SinkFailed>
    ensures bytes { Takes (S.taken sink.old) (spec.alone_line m) (S.taken sink.new) result }
    ensures cause { PutCounts (S.faults sink.old) (S.faults sink.new) result }
{
    let mut number = Buffer::new();
    put_all(
        sink,
        &[b"machine ", number.format(m).as_bytes(), b" alone\n"],
    )
}

/// The hexadecimal digit of a number whose lowest bit is this one.
fn digit_at(number: u32, low: u8) -> &'static str
    requires { low ≤ 28 }
    ensures { result.now ≡ spec.digit_at number low }
{
    match (number >> low) % 16 {
        0 => "0",
        1 => "1",
        2 => "2",
        3 => "3",
        4 => "4",
        5 => "5",
        6 => "6",
        7 => "7",
        8 => "8",
        9 => "9",
        10 => "a",
        11 => "b",
        12 => "c",
        13 => "d",
        14 => "e",
        _ => "f",
    }
}
