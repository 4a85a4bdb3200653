// Floors by a profile.
ghost use Rattle.std.specs.Prelude.{◌≡◌, ◌^◌, eqb, if◌then◌else◌};
ghost use Rattle.number.specs.Limits.{max_digits};
ghost use Rattle.check_laws.specs.Floors.{raised};

use check_laws::{Floors, limits};

// A floor of i, or past every i where no last digit is left.
fn by_digits(digits: u64, floor: u64) -> u64
    ensures { result ≡ (if eqb digits 0 then 10 ^ max_digits else floor) }
{
    if digits == 0 {
        limits::INTEGER_LIMIT
    } else {
        floor
    }
}

// The floors, raised by the profile p.
pub fn raise(p: u64, l: Floors) -> Floors
    ensures { result ≡ raised p l }
{
    Floors {
        whole: by_digits(check_profile::whole_digits(p), l.whole),
        part: by_digits(check_profile::part_digits(p), l.part),
        tail: l.tail,
    }
}
