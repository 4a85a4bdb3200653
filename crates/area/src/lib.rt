// Writing a text piece by piece into an area that the caller lends.
//
// Each function writes its piece from a place on and answers the next place. What would stand past
// the area's end is not written and is counted all the same, so the last place tells the bytes
// needed. A place is kept at the largest usize once it is there.
#![tactic(auto)]

ghost use Rattle.std.specs.Prelude.{[], ◌∷◌};
ghost use Rattle.decimal.specs.Digits.{numeral};
ghost use Rattle.area.specs.Area.{Wrote};

// One byte.
pub fn put(out: &mut [u8], at: usize, b: u8) -> usize
    ensures { Wrote out.old at (b ∷ []) out.new result }
{
    // By index: no clause says what a write through a slice's `get_mut` leaves.
    if at < out.len() {
        out[at] = b;
    }
    at.saturating_add(1)
}

// Some bytes.
pub fn append(out: &mut [u8], at: usize, s: &[u8]) -> usize
    ensures { Wrote out.old at s.now out.new result }
{
    let mut next = at;
    for b in s {
        next = put(out, next, *b);
    }
    next
}

// A number's decimal digits.
pub fn append_number(out: &mut [u8], at: usize, n: u64) -> usize
    ensures { Wrote out.old at (numeral n) out.new result }
{
    let mut digits = [0u8; 20];
    decimal::figure::write_figures(&mut digits, n);
    let zeros = decimal::scan::leading_zeros(&digits).min(19);
    append(out, at, decimal::cut::after(&digits, zeros))
}
