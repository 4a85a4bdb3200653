// The levels that a clause asks are marked, and the relations of one level listed.
ghost use Rattle.std.specs.Prelude.{◌≡◌, true, false, List, ℕ, ◌≤◌, ◌<◌, length, get_or, if◌then◌else◌};
ghost use Rattle.pack_rules.specs.Room.{relation_room};
ghost use Rattle.pack_rules.specs.Stretch.{relation_by, table_of};
ghost use Rattle.check_laws.specs.Levels.{own, levelled};
ghost use Rattle.check_laws.specs.Read.{joined_in};
ghost use Rattle.check_laws.specs.Ready.{Fit};
ghost use Rattle.check_runs.specs.Kept.{kept_room, size_of, Told, Gathered, Noted, Grown};
ghost use Rattle.check_relation.specs.Runs.{tier};

use crate::{KEPT, LevelList, LevelMarks, clause};
use check_laws::{Query, Span};
use check_relation::relation;
use pack_rules::{Pack, Single, single_at};

// The level that is told of a relation that is not asked, past all levels: the definition `tier` has it.
const UNASKED: usize = 9;

// Marks the level l.
fn mark(marks: &mut LevelMarks, l: usize)
    requires { l < 9 }
    ensures marked { get_or marks.new.asked l false ≡ true }
    ensures grown { Grown marks.old.asked marks.new.asked }
    ensures tiers_kept { marks.new.tiers ≡ marks.old.tiers }
{
    marks.asked[l] = true;
}

// Marks the level of the last digit, where it is asked.
fn mark_digit(q: Query, marks: &mut LevelMarks)
    ensures marked { q.odd ≡ true → get_or marks.new.asked 1 false ≡ true }
    ensures tiers_kept { marks.new.tiers ≡ marks.old.tiers }
{
    if q.odd {
        mark(marks, 1);
    }
}

// Marks the level of the relation, where it is asked, and tells it.
fn mark_of(q: Query, s: Single, marks: &mut LevelMarks) -> usize
    requires { Fit q }
    ensures tier { (low high : List ℕ) → result ≡ tier q (relation_by low high s) }
    ensures noted { (low high : List ℕ) → Noted q (relation_by low high s) marks.new.asked }
    ensures grown { Grown marks.old.asked marks.new.asked }
    ensures tiers_kept { marks.new.tiers ≡ marks.old.tiers }
{
    let k = relation::factor_of(q, s.operand);
    if k == 0 {
        return UNASKED;
    }
    let l = relation::level_of(k, u64::from(s.modulus));
    mark(marks, l);
    l
}

// Marks the levels that the clause asks, and tells that of each relation.
pub fn mark_levels(pack: &Pack, s: Span, q: Query, marks: &mut LevelMarks)
    requires fit { Fit q }
    requires in_room { (s.to ≤ relation_room) × (s.stop ≤ relation_room) × (size_of s ≤ kept_room) × (length marks.old.tiers ≡ kept_room) }
    ensures told { Told (table_of pack.now) s q marks.new.tiers }
    ensures unasked { (j : ℕ) → j < 9 → get_or marks.new.asked j false ≡ false → (x : ℕ) → own q (joined_in (table_of pack.now) s) j x ≡ true }
    ensures all_levelled { get_or marks.new.asked 8 false ≡ false → levelled q (joined_in (table_of pack.now) s) ≡ true }
{
    mark_digit(q, marks);
    let size = clause::size_of(s);
    for k in 0..size {
        let tier = mark_of(q, single_at(pack, clause::place_of(s, k)), marks);
        marks.tiers[k] = tier;
    }
}

// The relations below `size` whose level it is.
pub fn list_level(marks: &LevelMarks, size: usize, level: usize) -> LevelList
    requires { size ≤ kept_room }
    ensures gathered { Gathered marks.now.tiers level result.at result.count size }
    ensures level { result.level ≡ level }
{
    let mut at: [usize; KEPT] = [0; KEPT];
    let mut count = 0;
    for k in 0..size {
        at[count] = k;
        if marks.tiers[k] == level {
            count += 1;
        }
    }
    LevelList { level, count, at }
}
