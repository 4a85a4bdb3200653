// Clauses: what one asks at a level, and how far it says the same; whether a number passes all of it.
//
// The run of each of its relations is kept, in `says` and `stop`, and is looked for anew only where it
// has ended.
ghost use Rattle.std.specs.Prelude.{◌≡◌, true, false, ◌+◌, ◌-◌, ◌≤◌, ◌<◌};
ghost use Rattle.pack_rules.specs.Room.{relation_room};
ghost use Rattle.pack_rules.specs.Stretch.{table_of, relation_at};
ghost use Rattle.check_laws.specs.Seek.{Alike};
ghost use Rattle.check_laws.specs.Fast.{ends, passes_all};
ghost use Rattle.check_laws.specs.Levels.{own_one, last_digit, own};
ghost use Rattle.check_laws.specs.Read.{joined_in};
ghost use Rattle.check_laws.specs.Ready.{Fit, Room};
ghost use Rattle.check_runs.specs.Kept.{kept_room, size_of, place_of, Kept, Listed};
ghost use Rattle.check_relation.specs.Runs.{tier, far};

use crate::{LevelList, Runs};
use check_laws::{Query, Span};
use check_relation::{FAR, Run, relation};
use pack_rules::{Pack, single_at};

// How many places there are from `from` to before `to`.
fn count(from: usize, to: usize) -> usize
    ensures { result ≡ to - from }
{
    if from < to { to - from } else { 0 }
}

// How many relations the clause has.
pub fn size_of(s: Span) -> usize
    requires { (s.to ≤ relation_room) × (s.stop ≤ relation_room) }
    ensures { result ≡ size_of s }
{
    count(s.from, s.to) + count(s.start, s.stop)
}

// Where the one of index k stands.
pub fn place_of(s: Span, k: usize) -> usize
    requires { (s.to ≤ relation_room) × (s.stop ≤ relation_room) × (k < size_of s) }
    ensures value { result ≡ place_of s k }
    ensures upper_bound { result < relation_room }
{
    let n = count(s.from, s.to);
    if k < n {
        return s.from + k;
    }
    s.start + (k - n)
}

// The run of "the last digit is not 0".
fn digit_run(q: Query, level: usize, p: u64) -> Run
    requires { Room q p }
    ensures alike { Alike (last_digit q level) p result.says result.stop }
    ensures near { (result.stop ≤ far) × (result.says ≡ true → result.stop ≡ far) }
{
    if q.odd {
        if level == 1 {
            if p == 0 {
                return Run {
                    says: false,
                    stop: 1,
                };
            }
        }
    }
    Run {
        says: true,
        stop: FAR,
    }
}

// The run of the relation k, as it is kept, or looked for anew and kept.
fn run_at(pack: &Pack, s: Span, q: Query, level: usize, p: u64, k: usize, runs: &mut Runs) -> Run
    requires fit { Fit q }
    requires room { Room q p }
    requires in_room { (s.to ≤ relation_room) × (s.stop ≤ relation_room) × (k < size_of s) × (k < kept_room) × (level < 9) × (level ≡ tier q (relation_at (table_of pack.now) (place_of s k))) }
    requires kept { Kept (table_of pack.now) s q level p runs.old.says runs.old.stop }
    ensures alike { Alike (own_one q level (relation_at (table_of pack.now) (place_of s k))) p result.says result.stop }
    ensures kept_after { Kept (table_of pack.now) s q level p runs.new.says runs.new.stop }
{
    let end = runs.stop[k];
    if p < end {
        return Run {
            says: runs.says[k],
            stop: end,
        };
    }
    let r = relation::own_run(pack, q, level, single_at(pack, place_of(s, k)), p);
    runs.says[k] = r.says;
    runs.stop[k] = r.stop;
    r
}

// What the clause asks of p at a level, and up to where it says the same. `list` has the relations of the
// level; the first that says no ends it.
pub fn clause_run(pack: &Pack, s: Span, q: Query, list: &LevelList, p: u64, runs: &mut Runs) -> Run
    requires fit { Fit q }
    requires room { Room q p }
    requires in_room { (s.to ≤ relation_room) × (s.stop ≤ relation_room) × (size_of s ≤ kept_room) × Listed (table_of pack.now) s q list.now.level list.now.at list.now.count }
    requires kept { Kept (table_of pack.now) s q list.now.level p runs.old.says runs.old.stop }
    ensures alike { Alike (own q (joined_in (table_of pack.now) s) list.now.level) p result.says result.stop }
    ensures near { result.stop ≤ far }
    ensures kept_after { Kept (table_of pack.now) s q list.now.level p runs.new.says runs.new.stop }
{
    let digit = digit_run(q, list.level, p);
    if !digit.says {
        return digit;
    }
    let mut end = FAR;
    for i in 0..list.count {
        let r = run_at(pack, s, q, list.level, p, list.at[i], runs);
        if !r.says {
            return Run {
                says: false,
                stop: r.stop.min(FAR),
            };
        }
        end = end.min(r.stop);
    }
    Run {
        says: true,
        stop: end,
    }
}

// Whether x passes what is asked of its last digit.
pub fn ends_of(q: Query, x: u64) -> bool
    ensures { result ≡ ends q x }
{
    if q.odd {
        return x % 10 != 0;
    }
    true
}

// Whether x passes all that the clause asks of it.
pub fn passes_at(pack: &Pack, s: Span, q: Query, x: u64) -> bool
    requires { Room q x × (s.to ≤ relation_room) × (s.stop ≤ relation_room) }
    ensures { result ≡ passes_all q (joined_in (table_of pack.now) s) x }
{
    if !ends_of(q, x) {
        return false;
    }
    for k in 0..size_of(s) {
        if !relation::passes_of(pack, q, single_at(pack, place_of(s, k)), x) {
            return false;
        }
    }
    true
}
