// The next number of one level of the table.
ghost use Rattle.std.specs.Prelude.{◌≡◌, ◌-◌, ◌≤◌, ◌<◌, get_or};
ghost use Rattle.check_laws.specs.Segments.{first, up_to, wrap, climb};
ghost use Rattle.check_laws.specs.Read.{cap};
ghost use Rattle.check_next.specs.Table.{room, Small, segments_in, climb_in};

use crate::NextTable;

// Where the first segment from place k on starts, or m where there is none before place `to`.
fn start_from(table: &NextTable, k: usize, to: usize, m: u64) -> u64
    requires { to ≤ room }
    ensures { result ≡ first (segments_in table.now.starts table.now.ends k to) m }
{
    if to <= k {
        return m;
    }
    u64::from(table.starts[k])
}

// The same of the segments from place k on, the first of which ends at r or behind it.
fn up_from(table: &NextTable, k: usize, to: usize, m: u64, r: u64, z: u64) -> u64
    requires { (k < to) × (to ≤ room) × (r ≤ get_or table.now.ends k 0) }
    ensures { result ≡ up_to (segments_in table.now.starts table.now.ends k to) m r z }
{
    let start = u64::from(table.starts[k]);
    if r <= start {
        return start;
    }
    if z <= u64::from(table.ends[k]) {
        return z;
    }
    start_from(table, k + 1, to, m)
}

// The least remainder from r on, or m where there is none; z is the next number from r on of the
// levels below.
fn up_to(table: &NextTable, from: usize, to: usize, m: u64, r: u64, z: u64) -> u64
    requires { to ≤ room }
    ensures { result ≡ up_to (segments_in table.now.starts table.now.ends from to) m r z }
{
    for k in from..to {
        if r <= u64::from(table.ends[k]) {
            return up_from(table, k, to, m, r, z);
        }
    }
    m
}

// A remainder o, or where it is m the first one of the next block of m.
fn wrap_round(table: &NextTable, from: usize, to: usize, m: u64, o: u64) -> u64
    requires { (to ≤ room) × (m ≤ 1_000_000) × Small table.now.starts }
    ensures { result ≡ wrap (segments_in table.now.starts table.now.ends from to) m o }
{
    if o < m {
        return o;
    }
    m + start_from(table, from, to, m)
}

// The next number from x on of the level with modulus m whose segments stand at `from` to before
// `to`; y is that of the levels below. A level without segments asks nothing.
pub fn climb(table: &NextTable, from: usize, to: usize, m: u64, x: u64, y: u64) -> u64
    requires { (to ≤ room) × (0 < m) × (m ≤ 1_000_000) × (x ≤ cap) × Small table.now.starts × Small table.now.ends }
    ensures { result ≡ climb_in table.now.starts table.now.ends from to m x y }
{
    if to <= from {
        return y;
    }
    let r = x % m;
    let o = up_to(table, from, to, m, r, y.saturating_sub(x - r));
    x - r + wrap_round(table, from, to, m, o)
}
