//! The variables by their numbers: those of the first scope are the codes of their identifiers, which are consecutive
//! printable characters (IEEE 1364-2005, section 18.2.1).
ghost use Rattle.std.specs.Prelude.{◌≡◌, ◌++◌, length};
ghost use Rattle.vcd_trace.specs.Groups.{vectors_of};

use block_core::Sample;

/// How much greater the numbers of the variables of a second scope are.
pub(crate) const SECOND: u8 = 128;

/// The number of the first pin's level.
pub(crate) const LEVEL: u8 = 33;

/// The number of the first pin's direction.
pub(crate) const DIRECTION: u8 = LEVEL + 32;

/// The number of the first IRQ flag.
pub(crate) const FLAG: u8 = DIRECTION + 32;

/// The number of the first value of more than one bit.
pub(crate) const VECTOR: u8 = FLAG + 8;

/// The number of the first pad.
pub(crate) const PAD: u8 = LEVEL + SECOND;

/// The number of the first value of the machine at place 0.
pub(crate) const MACHINE: u8 = PAD + 32;

/// How many values a machine has.
pub(crate) const MACHINE_VALUES: u8 = 10;

/// The values of more than one bit, in the order of their identifiers.
pub(crate) fn vectors_of(sample: &Sample) -> [u32; 16]
    ensures values { result ≡ vectors_of sample.now }
    ensures count { length (vectors_of sample.now) ≡ 16 }
{
    let [t0, t1, t2, t3] = sample.tx;
    let [r0, r1, r2, r3] = sample.rx;
    let [w0, w1, w2, w3] = sample.got;
    let [s0, s1, s2, s3] = sample.sticky;
    [
        u32::from(t0),
        u32::from(t1),
        u32::from(t2),
        u32::from(t3),
        u32::from(r0),
        u32::from(r1),
        u32::from(r2),
        u32::from(r3),
        w0,
        w1,
        w2,
        w3,
        u32::from(s0),
        u32::from(s1),
        u32::from(s2),
        u32::from(s3),
    ]
}
