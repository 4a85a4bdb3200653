// Stores what has been read of a pack into its arrays: anything at a place where a test holds, and a
// relation as a row of four numbers.
//
// specs/Stored.antt has the stores as definitions. A place behind the array's end stores nothing, so
// every function is total. The entries are put_if and put_row.
#![tactic(auto)]

ghost use Rattle.std.specs.Prelude.{◌≡◌};
ghost use Rattle.pack_columns.specs.Stored.{set_if, set_row_if, row_for};

use pack_rules::{Columns, RELATION_ROOM};
use pack_walk::Current;

// The value at the place n, where the test holds.
pub fn put_if<T: Copy>(on: bool, a: &mut [T], n: usize, v: T)
    ensures { a.new ≡ set_if on a.old n v }
{
    if on && n < a.len() {
        a[n] = v;
    }
}

// The row n: the relation that has been read, whose ranges end at this place.
pub fn put_row(on: bool, a: &mut Columns, n: usize, o: Current, end: usize)
    ensures { a.new ≡ set_row_if on a.old n (row_for o end) }
{
    if on && n < RELATION_ROOM {
        let k = 4 * n;
        a[k] = u32::from(o.operand);
        a[k + 1] = o.modulus;
        a[k + 2] = u32::from(o.negated);
        a[k + 3] = end.min(4_294_967_295) as u32;
    }
}
