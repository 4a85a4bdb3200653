// The levels of the table, built one above the other.
ghost use Rattle.std.specs.Prelude.{◌≡◌, true, false, ℕ, ◌+◌, ◌^◌, ◌≤◌, ◌<◌, get_or};
ghost use Rattle.pack_rules.specs.Room.{relation_room};
ghost use Rattle.pack_rules.specs.Stretch.{table_of};
ghost use Rattle.check_laws.specs.Levels.{own, below};
ghost use Rattle.check_laws.specs.Read.{joined_in};
ghost use Rattle.check_laws.specs.Ready.{Fit};
ghost use Rattle.check_runs.specs.Kept.{kept_room, size_of, Told};
ghost use Rattle.check_next.specs.Table.{room, segments_in, Laid, Tabled};
ghost use Rattle.check_table.specs.Building.{Covers, BuiltAs};

use crate::{Built, find};
use check_laws::{Query, Span};
use check_next::{NextTable, ROOM};
use check_runs::clause::size_of;
use check_runs::marks::list_level;
use check_runs::{KEPT, LevelMarks, Runs};
use pack_rules::Pack;

pub const LEVELS: usize = 7;

// Stores the segments of level j behind those of the levels below it: what the relations of the level
// allow, each from the first number on that passes the levels below. Returns the place behind the
// last, or one past the room where it does not suffice: the clause `covers` speaks of places.
fn fill_level(
    pack: &Pack,
    s: Span,
    q: Query,
    marks: &LevelMarks,
    table: &mut NextTable,
    j: usize,
    m: u64,
) -> usize
    requires fit { Fit q × (s.to ≤ relation_room) × (s.stop ≤ relation_room) × (size_of s ≤ kept_room) × (j < 7) × (m ≡ 10 ^ j) × Told (table_of pack.now) s q marks.now.tiers }
    requires laid { Laid table.old.starts table.old.ends table.old.at j }
    requires tabled { Tabled (below q (joined_in (table_of pack.now) s)) table.old.starts table.old.ends table.old.at j }
    ensures laid_after { Laid table.new.starts table.new.ends table.new.at j }
    ensures tabled_after { Tabled (below q (joined_in (table_of pack.now) s)) table.new.starts table.new.ends table.new.at j }
    ensures at_kept { table.new.at ≡ table.old.at }
    ensures covers { result ≤ room → Covers (own q (joined_in (table_of pack.now) s) j) (below q (joined_in (table_of pack.now) s) j) (segments_in table.new.starts table.new.ends (get_or table.new.at j 0) result) (10 ^ j) }
{
    let mut runs = Runs {
        says: [false; KEPT],
        stop: [0; KEPT],
    };
    let list = list_level(marks, size_of(s), j);
    let mut n = table.at[j];
    let mut p: u64 = 0;
    // By segments: a turn goes on where the one that is found ends.
    while p < m {
        let f = find::find(pack, s, q, &list, table, j, p, m, &mut runs);
        if m <= f.at {
            return n;
        }
        if ROOM <= n {
            return ROOM + 1;
        }
        table.starts[n] = f.at as u32;
        table.ends[n] = (f.stop - 1) as u32;
        n += 1;
        p = f.stop;
    }
    n
}

// Adds level j to the table, where its relations are asked; where they are not, it asks nothing.
fn add_level(
    pack: &Pack,
    s: Span,
    q: Query,
    marks: &LevelMarks,
    table: &mut NextTable,
    j: usize,
    m: u64,
) -> Built
    requires fit { Fit q × (s.to ≤ relation_room) × (s.stop ≤ relation_room) × (size_of s ≤ kept_room) × (j < 7) × (m ≡ 10 ^ j) × Told (table_of pack.now) s q marks.now.tiers }
    requires unasked { get_or marks.now.asked j false ≡ false → (x : ℕ) → own q (joined_in (table_of pack.now) s) j x ≡ true }
    requires laid { Laid table.old.starts table.old.ends table.old.at j }
    requires tabled { Tabled (below q (joined_in (table_of pack.now) s)) table.old.starts table.old.ends table.old.at j }
    ensures { BuiltAs (below q (joined_in (table_of pack.now) s)) table.new.starts table.new.ends table.new.at (j + 1) result }
{
    let from = table.at[j];
    if !marks.asked[j] {
        table.at[j + 1] = from;
        return Built::Stands;
    }
    let end = fill_level(pack, s, q, marks, table, j, m);
    if ROOM < end {
        return Built::Full;
    }
    if end <= from {
        return Built::Empty;
    }
    table.at[j + 1] = end;
    Built::Stands
}

// Builds the levels of the table in turn.
pub fn build(pack: &Pack, s: Span, q: Query, marks: &LevelMarks, table: &mut NextTable) -> Built
    requires fit { Fit q × (s.to ≤ relation_room) × (s.stop ≤ relation_room) × (size_of s ≤ kept_room) × Told (table_of pack.now) s q marks.now.tiers }
    requires unasked { (j : ℕ) → j < 9 → get_or marks.now.asked j false ≡ false → (x : ℕ) → own q (joined_in (table_of pack.now) s) j x ≡ true }
    requires laid { Laid table.old.starts table.old.ends table.old.at 0 }
    ensures { BuiltAs (below q (joined_in (table_of pack.now) s)) table.new.starts table.new.ends table.new.at 7 result }
{
    let mut m: u64 = 1;
    for j in 0..LEVELS {
        match add_level(pack, s, q, marks, table, j, m) {
            Built::Stands => m *= 10,
            Built::Empty => return Built::Empty,
            Built::Full => return Built::Full,
        }
    }
    Built::Stands
}
