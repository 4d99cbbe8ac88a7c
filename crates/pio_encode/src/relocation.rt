//! A word of a program that is loaded at an offset.
ghost use Rattle.std.specs.Prelude.{◌≡◌, ◌<◌, ◌≤◌};
ghost use Rattle.pio_encode.specs.Relocation as spec;

/// The word with a JMP's target moved by `offset` (0 to 31), or `None` where the target would pass 31.
pub fn relocate(word: u16, offset: u8) -> Option<u16>
    requires { offset ≤ 31 }
    ensures { result ≡ spec.relocated word offset }
{
    let is_jump = word >> 13 == 0;
    if !is_jump {
        return Some(word);
    }
    let target = word % 32 + u16::from(offset);
    if target < 32 {
        Some((word >> 5 << 5) + target)
    } else {
        None
    }
}
