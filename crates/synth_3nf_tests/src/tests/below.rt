// What a call asks of its dependencies.
ghost use Rattle.std.specs.Prelude.{◌<◌, ◌≤◌, ◌^◌, IsTrue};
ghost use Rattle.std.specs.List.{All};

use rel_base::{ColSet, Fd};

// Whether each left side has columns below n alone.
pub fn lie_below(fds: &[Fd], n: u8) -> bool
    requires { n ≤ 128 }
    ensures { IsTrue result → All (λ fd. fd.left < 2 ^ n) fds.now }
{
    for fd in fds {
        if !fd.left.subset_of(ColSet::all(n)) {
            return false;
        }
    }
    true
}
