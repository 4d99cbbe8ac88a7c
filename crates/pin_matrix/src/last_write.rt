//! Which of a clock's writes to the pins count.
ghost use Rattle.std.specs.Prelude.{◌≡◌, ◌-◌, ◌^◌};
ghost use Rattle.pin_matrix.specs.Pins as spec;

/// The levels, or the directions, after a clock's writes: two of each machine in order of the machines' numbers, of which
/// side-set's is the second. Of the writes that hold a pin the last one counts; a pin that none holds stays. Rows alone call it:
/// a block merges the two of each machine by `merge`.
pub fn merge4(old: u32, writes: &[(u32, u32); 8]) -> u32
    ensures { result ≡ spec.merged old writes.now }
{
    merge(old, writes)
}

/// The same after any writes, such as the two of one machine.
#[inline]
pub fn merge(old: u32, writes: &[(u32, u32)]) -> u32
    ensures { result ≡ spec.merged old writes.now }
{
    let mut pins = old;
    for write in writes {
        pins = written(pins, *write);
    }
    pins
}

/// The pins after one write.
#[inline]
fn written(old: u32, write: (u32, u32)) -> u32
    ensures { result ≡ spec.written old write }
{
    let (pins, bits) = write;
    if pins == 0 { old } else { bits | (old & !pins) }
}
