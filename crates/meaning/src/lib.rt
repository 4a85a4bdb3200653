// What the relations, clauses and conditions at places of a pack's arrays mean of a number.
#![tactic(auto)]

ghost use Rattle.std.specs.Prelude.{◌≡◌, ◌%◌, ◌≤◌, ◌<◌, min, get_or};
ghost use Rattle.decimal.specs.Lists.{any};
ghost use Rattle.pack_rules.specs.Room.{clause_room, range_room, relation_room};
ghost use Rattle.pack_rules.specs.Stretch.{start_at, ranges_in, relation_by, table_of, relations_in, clauses_in};
ghost use Rattle.meaning.specs.Meaning.{in_range, operand_value, is_whole, holds, clause_holds, condition_holds};

use number::Number;
use pack_rules::{Pack, RELATION_ROOM, Single, letter, single_at, start_at, stop_at};

fn operand_value(o: u32, x: Number) -> u64
    ensures { result ≡ operand_value o x }
{
    match o {
        letter::N | letter::I => x.i,
        letter::F => x.f.0,
        letter::T => x.t.0,
        letter::V => u64::from(x.v.0),
        letter::W => u64::from(x.w.0),
        _ => u64::from(x.e),
    }
}

fn is_whole(o: u32, x: Number) -> bool
    ensures { result ≡ is_whole o x }
{
    o != letter::N || x.f.0 == 0
}

// x is in the range a..b.
pub fn in_range(a: u32, b: u32, x: u64) -> bool
    ensures { result ≡ in_range x (record { low = a; high = b }) }
{
    u64::from(a) <= x && x <= u64::from(b)
}

// x is in one of the ranges at `from` to before `to`.
fn in_ranges(pack: &Pack, from: usize, to: usize, x: u64) -> bool
    requires { to ≤ range_room }
    ensures { result ≡ any (in_range x) (ranges_in pack.now.low pack.now.high from to) }
{
    for k in from..to {
        if in_range(pack.low[k], pack.high[k], x) {
            return true;
        }
    }
    false
}

// The relation holds.
fn relation_holds(pack: &Pack, s: Single, x: Number) -> bool
    ensures { result ≡ holds (relation_by pack.now.low pack.now.high s) x }
{
    if !is_whole(s.operand, x) {
        return s.negated;
    }
    let value = operand_value(s.operand, x);
    let rest = value.checked_rem(u64::from(s.modulus)).unwrap_or(value);
    s.negated != in_ranges(pack, s.from, s.to, rest)
}

// The relations at `from` to before `to` all hold.
fn clause_holds(pack: &Pack, from: usize, to: usize, x: Number) -> bool
    requires { to ≤ relation_room }
    ensures { result ≡ clause_holds (relations_in (table_of pack.now) from to) x }
{
    for j in from..to {
        if !relation_holds(pack, single_at(pack, j), x) {
            return false;
        }
    }
    true
}

// One of the clauses at `from` to before `to` holds.
pub fn condition_holds(pack: &Pack, from: usize, to: usize, x: Number) -> bool
    requires { to ≤ clause_room }
    ensures { result ≡ condition_holds (clauses_in (table_of pack.now) pack.now.relations from to) x }
{
    for j in from..to {
        if clause_holds(
            pack,
            start_at(&pack.relations, j),
            stop_at(&pack.relations, j, RELATION_ROOM),
            x,
        ) {
            return true;
        }
    }
    false
}
