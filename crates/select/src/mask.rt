// The rules that a number meets, as bits: the first rule is the lowest.
ghost use Rattle.std.specs.Prelude.{◌≡◌, ◌+◌, ◌*◌, ◌^◌, ◌≤◌, ◌<◌, min, get_or};
ghost use Rattle.pack_rules.specs.Room.{clause_room, rule_room};
ghost use Rattle.pack_rules.specs.Stretch.{stretch, start_at, table_of};
ghost use Rattle.meaning.specs.Places.{met_at};
ghost use Rattle.select.specs.Select.{bit, mask_of};

use number::Number;
use pack_rules::{CLAUSE_ROOM, Pack, RULE_ROOM, start_at, stop_at};

// The bit k set where `on` is true. Of 32 bits: the machine counts a word's bits and zeros by one step.
fn with_bit(mask: u32, k: u32, on: bool) -> u32
    requires { (mask < 2 ^ k) × (k < rule_room) }
    ensures { result ≡ mask + bit on * 2 ^ k }
{
    if on { mask | (1 << k) } else { mask }
}

// Whether the number meets the rule j.
pub fn met_at(pack: &Pack, j: usize, x: Number) -> bool
    requires { j < rule_room }
    ensures { result ≡ met_at (table_of pack.now) pack.now.relations pack.now.clauses x j }
{
    meaning::condition_holds(
        pack,
        start_at(&pack.clauses, j),
        stop_at(&pack.clauses, j, CLAUSE_ROOM),
        x,
    )
}

// The bits of the first `count` rules.
pub fn met_mask(pack: &Pack, count: usize, x: Number) -> u32
    ensures { result ≡ mask_of (stretch (met_at (table_of pack.now) pack.now.relations pack.now.clauses x) 0 (min count 6)) }
{
    let rules = count.min(RULE_ROOM);
    let mut mask: u32 = 0;
    let mut bit: u32 = 0;
    for j in 0..rules {
        let met = met_at(pack, j, x);
        mask = with_bit(mask, bit, met);
        bit += 1;
    }
    mask
}
