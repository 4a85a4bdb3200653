// The search for one number, by the levels that it asks.
ghost use Rattle.std.specs.Prelude.{◌≡◌, true, false, ℕ, ◌+◌, ◌≤◌, ◌<◌, get_or};
ghost use Rattle.pack_rules.specs.Room.{relation_room};
ghost use Rattle.pack_rules.specs.Stretch.{table_of};
ghost use Rattle.check_laws.specs.Seek.{Least};
ghost use Rattle.check_laws.specs.Fast.{ends, passes_all};
ghost use Rattle.check_laws.specs.Levels.{own, below, levelled, levels, window};
ghost use Rattle.check_laws.specs.Read.{cap, joined_in};
ghost use Rattle.check_laws.specs.Ready.{Fit, Room};
ghost use Rattle.check_runs.specs.Kept.{kept_room, size_of, Told};
ghost use Rattle.check_next.specs.Table.{Laid, Tabled};

use check_laws::{Query, Span};
use check_next::{NextTable, ROOM};
use check_runs::clause::{clause_run, ends_of, passes_at, size_of};
use check_runs::marks::{list_level, mark_levels};
use check_runs::{KEPT, LevelMarks, Runs};
use check_table::level::LEVELS;
use check_table::{Built, find, level};
use pack_rules::Pack;

// The level of what is asked of the number itself, and that of moduli that fit no level.
const WINDOW: usize = 7;

const STRAY: usize = 8;

// Tries each number in turn. No two clauses of a pack that was read come here: together they have at
// most 16 relations, whose moduli are powers of ten, with 16 ranges each, and a segment of the table ends
// where a range ends or begins or where its level ends.
fn try_each(pack: &Pack, s: Span, q: Query, lo: u64, hi: u64) -> u64
    requires { Room q hi × (lo ≤ hi) × (s.to ≤ relation_room) × (s.stop ≤ relation_room) }
    ensures { Least (passes_all q (joined_in (table_of pack.now) s)) lo hi result }
{
    for x in lo..hi {
        if passes_at(pack, s, q, x) {
            return x;
        }
    }
    hi
}

// The least number that the relations of the number itself allow.
fn in_window(pack: &Pack, s: Span, q: Query, marks: &LevelMarks, lo: u64, hi: u64) -> u64
    requires { Fit q × Room q hi × (lo ≤ hi) × (s.to ≤ relation_room) × (s.stop ≤ relation_room) × (size_of s ≤ kept_room) × Told (table_of pack.now) s q marks.now.tiers }
    ensures { Least (own q (joined_in (table_of pack.now) s) window) lo hi result }
{
    let list = list_level(marks, size_of(s), WINDOW);
    let mut runs = Runs {
        says: [false; KEPT],
        stop: [0; KEPT],
    };
    let mut p = lo;
    // By runs: a turn goes on where the run ends.
    while p < hi {
        let run = clause_run(pack, s, q, &list, p, &mut runs);
        if run.says {
            return p;
        }
        p = run.stop;
    }
    hi
}

// The least of them that passes the levels of the table.
fn by_table(
    pack: &Pack,
    s: Span,
    q: Query,
    marks: &LevelMarks,
    table: &NextTable,
    lo: u64,
    hi: u64,
) -> u64
    requires fit { Fit q × Room q hi × (lo ≤ hi) × (s.to ≤ relation_room) × (s.stop ≤ relation_room) × (size_of s ≤ kept_room) × Told (table_of pack.now) s q marks.now.tiers }
    requires all_levelled { levelled q (joined_in (table_of pack.now) s) ≡ true }
    requires laid { Laid table.now.starts table.now.ends table.now.at levels }
    requires tabled { Tabled (below q (joined_in (table_of pack.now) s)) table.now.starts table.now.ends table.now.at levels }
    ensures { Least (passes_all q (joined_in (table_of pack.now) s)) lo hi result }
{
    let list = list_level(marks, size_of(s), WINDOW);
    let mut runs = Runs {
        says: [false; KEPT],
        stop: [0; KEPT],
    };
    let f = find::find(pack, s, q, &list, table, LEVELS, lo, hi, &mut runs);
    f.at
}

// Makes the table and searches by it.
fn in_table(pack: &Pack, s: Span, q: Query, marks: &LevelMarks, lo: u64, hi: u64) -> u64
    requires fit { Fit q × Room q hi × (lo ≤ hi) × (s.to ≤ relation_room) × (s.stop ≤ relation_room) × (size_of s ≤ kept_room) × Told (table_of pack.now) s q marks.now.tiers }
    requires all_levelled { levelled q (joined_in (table_of pack.now) s) ≡ true }
    requires unasked { (j : ℕ) → j < 9 → get_or marks.now.asked j false ≡ false → (x : ℕ) → own q (joined_in (table_of pack.now) s) j x ≡ true }
    ensures { Least (passes_all q (joined_in (table_of pack.now) s)) lo hi result }
{
    let mut table = NextTable {
        starts: [0; ROOM],
        ends: [0; ROOM],
        at: [0; 8],
    };
    let b = level::build(pack, s, q, marks, &mut table);
    match b {
        Built::Stands => by_table(pack, s, q, marks, &table, lo, hi),
        Built::Empty => hi,
        Built::Full => try_each(pack, s, q, lo, hi),
    }
}

// Whether a remainder is asked.
fn asks_remainder(marks: &LevelMarks) -> bool
    ensures { result ≡ false → (j : ℕ) → j < 7 → get_or marks.now.asked j false ≡ false }
{
    for j in 0..LEVELS {
        if marks.asked[j] {
            return true;
        }
    }
    false
}

// The least number by the levels that the clause asks. What is asked of the number itself comes first:
// where it leaves no number, or its least one passes, there is no table.
fn by_window(pack: &Pack, s: Span, q: Query, marks: &LevelMarks, lo: u64, hi: u64) -> u64
    requires fit { Fit q × Room q hi × (lo ≤ hi) × (s.to ≤ relation_room) × (s.stop ≤ relation_room) × (size_of s ≤ kept_room) × Told (table_of pack.now) s q marks.now.tiers }
    requires all_levelled { levelled q (joined_in (table_of pack.now) s) ≡ true }
    requires unasked { (j : ℕ) → j < 9 → get_or marks.now.asked j false ≡ false → (x : ℕ) → own q (joined_in (table_of pack.now) s) j x ≡ true }
    ensures { Least (passes_all q (joined_in (table_of pack.now) s)) lo hi result }
{
    let p = in_window(pack, s, q, marks, lo, hi);
    if hi <= p {
        return hi;
    }
    if !asks_remainder(marks) {
        return p;
    }
    if lo < p {
        if passes_at(pack, s, q, p) {
            return p;
        }
    }
    in_table(pack, s, q, marks, p, hi)
}

// The same, or where the levels do not serve by trying each.
fn by_levels(pack: &Pack, s: Span, q: Query, lo: u64, hi: u64) -> u64
    requires { Fit q × Room q hi × (lo ≤ hi) × (s.to ≤ relation_room) × (s.stop ≤ relation_room) }
    ensures { Least (passes_all q (joined_in (table_of pack.now) s)) lo hi result }
{
    if KEPT < size_of(s) {
        return try_each(pack, s, q, lo, hi);
    }
    let mut marks = LevelMarks {
        asked: [false; 9],
        tiers: [0; KEPT],
    };
    mark_levels(pack, s, q, &mut marks);
    if marks.asked[STRAY] {
        return try_each(pack, s, q, lo, hi);
    }
    by_window(pack, s, q, &marks, lo, hi)
}

// The first number from lo on whose last digit passes.
fn first(q: Query, lo: u64) -> u64
    requires { lo ≤ cap }
    ensures { (lo ≤ result) × (result ≤ lo + 1) × ((x : ℕ) → lo ≤ x → x < result → ends q x ≡ false) }
{
    if ends_of(q, lo) {
        return lo;
    }
    lo + 1
}

// The least number from lo on and below hi that passes what the clause asks, or hi. The first number is
// tried before the levels are looked at: a search that asks little ends there.
pub fn least(pack: &Pack, s: Span, q: Query, lo: u64, hi: u64) -> u64
    requires { Fit q × Room q hi × (lo ≤ hi) × (s.to ≤ relation_room) × (s.stop ≤ relation_room) }
    ensures { Least (passes_all q (joined_in (table_of pack.now) s)) lo hi result }
{
    let x = first(q, lo);
    if hi <= x {
        return hi;
    }
    if passes_at(pack, s, q, x) {
        return x;
    }
    by_levels(pack, s, q, lo, hi)
}
