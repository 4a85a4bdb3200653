// Chooses the plural word of a number text by a pack text.
#![tactic(auto)]

ghost use Rattle.std.specs.Prelude.{◌≡◌, [], ◌∷◌};
ghost use Rattle.pack_grammar.specs.Reader.{read_pack};
ghost use Rattle.pack_bare.specs.Bare.{bare_rule};
ghost use Rattle.select_text.specs.Select.{select_number, select_rules, select_of};

use answer::{Keyword, Refusal};
use number::Number;

// By a pack that has to be read: what is read of it stands here and is lent from here.
fn select_read(pack: &[u8], reading: Result<Number, Refusal>) -> Result<Keyword, Refusal>
    ensures { result ≡ select_rules (read_pack pack.now) reading }
{
    let mut held = pack_rules::empty();
    pack_reader::read_pack(pack, &mut held)?;
    select::select_held(&held, reading?)
}

// The word of the number, or the refusal of the pack, of the number, or 27, tested in this order. The
// pack that is `other:` alone gives its word unread.
pub fn select(pack: &[u8], number: &[u8]) -> Result<Keyword, Refusal>
    ensures { result ≡ select_of pack.now number.now }
{
    let reading = number_text::read_number(number);
    if pack_bare::is_bare(pack) {
        return reading.map(|_| Keyword::Other);
    }
    select_read(pack, reading)
}
