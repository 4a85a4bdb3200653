// Chooses the plural word of a number by the rules of a pack.
//
// The entries are select_held and meets_held, for a number and a parsed pack that is lent: a
// pack that is kept serves many numbers without a copy of it. specs/Select.antt says which word the
// rules that a number meets give.
#![tactic(auto)]

mod mask;

ghost use Rattle.std.specs.Prelude.{◌≡◌, ◌<◌, length, get_or};
ghost use Rattle.pack_rules.specs.Room.{rule_room};
ghost use Rattle.pack_rules.specs.Held.{keyword_of, held_rules};
ghost use Rattle.pack_rules.specs.Stretch.{table_of};
ghost use Rattle.meaning.specs.Places.{met_at};
ghost use Rattle.select.specs.Select.{selection};

use answer::{Keyword, Pair, Refusal, RulesRow};
use number::Number;
use pack_rules::Pack;

fn keyword_of(k: u8) -> Keyword
    ensures { result ≡ keyword_of k }
{
    match k {
        0 => Keyword::Zero,
        1 => Keyword::One,
        2 => Keyword::Two,
        3 => Keyword::Few,
        4 => Keyword::Many,
        _ => Keyword::Other,
    }
}

// The keyword of the rule k.
fn keyword_at(pack: &Pack, k: usize) -> Keyword
    requires { k < rule_room }
    ensures { result ≡ keyword_of (get_or pack.now.keyword k 0) }
{
    keyword_of(pack.keyword[k])
}

// The word of a number by a pack, or refusal 27 with the first two
// rules that it meets.
pub fn select_held(pack: &Pack, x: Number) -> Result<Keyword, Refusal>
    ensures { result ≡ selection (held_rules pack.now) x }
{
    let m = mask::met_mask(pack, pack.count, x);
    let met = u32::count_ones(m);
    if met == 0 {
        return Ok(Keyword::Other);
    }
    let first = u32::trailing_zeros(m);
    if met == 1 {
        return Ok(keyword_at(pack, first as usize));
    }
    let behind = first + 1;
    let second = behind + u32::trailing_zeros(m >> behind);
    Err(Refusal::Rules(RulesRow::TwoRulesMet(Pair {
        first: behind as u8,
        second: (second + 1) as u8,
    })))
}

// Whether a number meets the rule at the index j of a pack's arrays; no number meets one past them.
pub fn meets_held(pack: &Pack, j: usize, x: Number) -> bool
    ensures { result ≡ met_at (table_of pack.now) pack.now.relations pack.now.clauses x j }
{
    pack.clauses.get(j).is_some() && mask::met_at(pack, j, x)
}
