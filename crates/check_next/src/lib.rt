// The next number from a table of next numbers that stands.
//
// All moduli are powers of ten times the factor of what is searched for, and each divides the next. So
// the relations go by levels, one for each power, and each level has a list of segments: the remainders
// that it allows, from the first on that passes the levels below (specs/Table.antt). The next number of a
// level is found from that of the level below it. Crate check_table makes the table. The entry is next.
#![tactic(auto)]

mod climb;

// How many segments a table has room for.
pub const ROOM: usize = 288;

// Where the segments of a table start, or where they end; and where those of each level begin.
pub type Segments = [u32; ROOM];

pub type LevelPlaces = [usize; 8];

// The segments of all levels: where they start and end, and where those of each level begin. Arrays of
// fixed size, since there is no heap; two of them, since the definitions Laid and Tabled speak of each.
#[derive(Drop)]
pub struct NextTable {
    pub starts: Segments,
    pub ends: Segments,
    pub at: LevelPlaces,
}

ghost use Rattle.std.specs.Prelude.{Bool, ℕ, ◌+◌, ◌≤◌};
ghost use Rattle.check_laws.specs.Seek.{Next};
ghost use Rattle.check_laws.specs.Read.{cap};
ghost use Rattle.check_next.specs.Table.{Laid, Tabled};

// The least number from x on that passes the levels below j. Level i is asked once, with the next
// number of those below it.
pub fn next(table: &NextTable, j: usize, x: u64) -> u64
    requires { Laid table.now.starts table.now.ends table.now.at j × (x ≤ cap) }
    ensures { (result ≤ x + 2_000_000) × ((S : ℕ → ℕ → Bool) → Tabled S table.now.starts table.now.ends table.now.at j → Next (S j) x result) }
{
    let mut y = x;
    let mut m: u64 = 1;
    for i in 0..j {
        y = climb::climb(table, table.at[i], table.at[i + 1], m, x, y);
        m *= 10;
    }
    y
}
