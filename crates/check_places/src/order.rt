// The order of what searches find, and the answer where there is nothing.
ghost use Rattle.std.specs.Prelude.{◌≡◌, Bool, min, max, ltb};
ghost use Rattle.check_laws.specs.Check.{ranks};
ghost use Rattle.check_laws.specs.Spots.{spot_rank, Proper};

use answer::Witness;
use check_laws::limits;
use decimal::{DigitValue, Places};

// No number: its rank is past all ranks, so that the earlier of two needs no case for it.
pub fn nowhere() -> Witness
    ensures { (spot_rank result ≡ ranks) × Proper result }
{
    Witness {
        e: limits::NO_EXPONENT,
        v: Places(0),
        i: 0,
        f: DigitValue(0),
    }
}

// Whether a comes before b.
fn precedes(a: Witness, b: Witness) -> bool
    requires { Proper a × Proper b }
    ensures { result ≡ ltb (spot_rank a) (spot_rank b) }
{
    a < b
}

// The earlier of two.
pub fn earlier(a: Witness, b: Witness) -> Witness
    requires { Proper a × Proper b }
    ensures { (spot_rank result ≡ min (spot_rank a) (spot_rank b)) × Proper result }
{
    if precedes(a, b) { a } else { b }
}
