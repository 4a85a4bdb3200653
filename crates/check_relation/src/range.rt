// Ranges: whether a value is in one of a stretch of them, and how far the values after it are like it.
ghost use Rattle.std.specs.Prelude.{◌≡◌, ℕ, ◌+◌, ◌≤◌, ◌<◌, min, max};
ghost use Rattle.decimal.specs.Lists.{any};
ghost use Rattle.meaning.specs.Meaning.{in_range};
ghost use Rattle.pack_rules.specs.Room.{range_room};
ghost use Rattle.pack_rules.specs.Stretch.{ranges_in};
ghost use Rattle.check_laws.specs.Seek.{Alike};
ghost use Rattle.check_laws.specs.Read.{cap};
ghost use Rattle.check_relation.specs.Runs.{far, next_with};

use crate::{FAR, Run};
use meaning::in_range;
use pack_rules::Pack;

// The number behind b.
fn behind(b: u32) -> u64
    ensures { (result ≡ b + 1) × (result ≤ far) }
{
    u64::from(b) + 1
}

// The least start above y of those so far, with that of the range from a on.
fn next_with(next: u64, a: u32, y: u64) -> u64
    ensures { result ≡ next_with next a y }
{
    let start = u64::from(a);
    if y < start { next.min(start) } else { next }
}

// Whether y is in one of the ranges from place `from` to before `to`, and up to where it is so: past the
// first that holds it, or up to where the next one begins.
pub fn range_run(pack: &Pack, from: usize, to: usize, y: u64) -> Run
    requires { (to ≤ range_room) × (y ≤ cap) }
    ensures alike { Alike (λ (z : ℕ). any (in_range z) (ranges_in pack.now.low pack.now.high from to)) y result.says result.stop }
    ensures near { result.stop ≤ far }
{
    let mut next = FAR;
    for k in from..to {
        if in_range(pack.low[k], pack.high[k], y) {
            return Run {
                says: true,
                stop: behind(pack.high[k]),
            };
        }
        next = next_with(next, pack.low[k], y);
    }
    Run {
        says: false,
        stop: next,
    }
}
