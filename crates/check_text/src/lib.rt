// Checks a pack text: passed, or refusals 20 to 26, or 27 with the first two rules that one admitted
// number meets and the least such number. The entry is check.
#![tactic(auto)]

ghost use Rattle.std.specs.Prelude.{◌≡◌};
ghost use Rattle.check_text.specs.Check.{checked_by, check_pack};

use answer::{Refusal, RulesRow};
use check_laws::Clash;

fn refusal_of(clash: Clash) -> Refusal
    ensures { result ≡ Refusal.Rules (RulesRow.RulesClash clash.pair clash.witness) }
{
    Refusal::Rules(RulesRow::RulesClash(clash.pair, clash.witness))
}

// A pack that has to be read: what is read of it stands here and is lent from here.
fn check_read(pack: &[u8]) -> Result<(), Refusal>
    ensures { result ≡ check_pack pack.now }
{
    let mut held = pack_rules::empty();
    pack_reader::read_pack(pack, &mut held)?;
    check_pairs::check(&held).map_err(refusal_of)
}

// The pack that is `other:` alone has no two rules to meet, and passes unread.
pub fn check(pack: &[u8]) -> Result<(), Refusal>
    ensures { result ≡ check_pack pack.now }
{
    if pack_bare::is_bare(pack) {
        return Ok(());
    }
    check_read(pack)
}
