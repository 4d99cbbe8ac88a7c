//! What two machines share.
ghost use Rattle.std.specs.Prelude.{◌≡◌, ◌<◌, ◌↔◌, IsTrue};
ghost use Rattle.block_shares.specs.Shares as spec;
ghost use Rattle.block_shares.specs.Shares.{IsAlone, shares_of};
ghost use Rattle.block_shares.specs.Report as report;

use crate::touched::Touches;
use crate::touching::touches;
use pin_matrix::Setup;

/// What machine `m` can feel of machine `k`: the pins that `k` may write and `m` reads or may write, and the flags that
/// `k` changes and `m` waits for or changes. Machines are 0 to 3. It takes no memory.
pub fn shares(setup: &Setup, m: u8, k: u8) -> (u32, u8)
    requires one { m < 4 }
    requires other { k < 4 }
    ensures { result ≡ shares_of setup.now m k }
{
    felt(&touches(setup, m), &touches(setup, k))
}

/// What one can feel of the other.
fn felt(one: &Touches, other: &Touches) -> (u32, u8)
    ensures { result ≡ spec.felt one.now other.now }
{
    (
        other.writes & (one.reads | one.writes),
        other.changes & (one.sees | one.changes),
    )
}

/// Whether machine `m`, 0 to 3, can feel nothing of any other. It takes no memory.
pub fn alone(setup: &Setup, m: u8) -> bool
    requires { m < 4 }
    ensures { IsTrue result ↔ IsAlone setup.now m }
{
    !feels_any(setup, m)
}

/// Whether machine `m` can feel something of any other.
pub(crate) fn feels_any(setup: &Setup, m: u8) -> bool
    requires { m < 4 }
    ensures { result ≡ report.feels_any setup.now m }
{
    feels(setup, m, 0) || feels(setup, m, 1) || feels(setup, m, 2) || feels(setup, m, 3)
}

/// Whether machine `m` can feel something of machine `k`, another one.
pub(crate) fn feels(setup: &Setup, m: u8, k: u8) -> bool
    requires one { m < 4 }
    requires other { k < 4 }
    ensures { result ≡ report.feels setup.now m k }
{
    k != m && !is_nothing(shares(setup, m, k))
}

/// No pin and no flag.
fn is_nothing(felt: (u32, u8)) -> bool
    ensures { result ≡ report.is_nothing felt }
{
    felt.0 == 0 && felt.1 == 0
}
