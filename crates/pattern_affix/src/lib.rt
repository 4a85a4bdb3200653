// What is asked of a pattern's items: affixes, reserved bytes, percent and permille marks.
//
// specs/Affixes.antt says what is asked, specs/Firsts.antt which bytes some tokens begin with.
#![tactic(auto)]

ghost use Rattle.std.specs.Prelude.{◌≡◌, ◌==◌, ◌≤◌, length};
ghost use Rattle.pattern_token.specs.Items.{items};
ghost use Rattle.pattern_affix.specs.Firsts.{may_reserve, mark_byte};
ghost use Rattle.pattern_affix.specs.Affixes.{reserves, any_reserved, ends_affix, affix, weight, marks};

use pattern_token::{Item, Mark, Token, is_number, items_of, quoted_after, token_in};

// An affix: how many bytes it has, and whether it leaves no quote open. It has a length either way.
#[derive(Clone, Copy)]
pub struct Affix {
    pub len: usize,
    pub closed: bool,
}

fn is_refused(t: Item) -> bool
    ensures { result ≡ reserves t }
{
    matches!(t, Item::Reserved)
}

fn ends_affix(t: Item) -> bool
    ensures { result ≡ ends_affix t }
{
    matches!(t, Item::Place(_) | Item::Semicolon)
}

// The affix that s begins with.
pub fn affix_of(s: &[u8]) -> Affix
    ensures { (result ≡ affix s.now) × (result.len ≤ length s.now) }
{
    let mut quoted = false;
    let mut number = false;
    let mut len = 0;
    // By index: the step is the token's width.
    while len < s.len() {
        let Token { item, width } = token_in(s, len, quoted, number);
        if ends_affix(item) {
            return Affix { len, closed: true };
        }
        quoted = quoted_after(quoted, item);
        number = is_number(item);
        len += width;
    }
    Affix {
        len,
        closed: !quoted,
    }
}

// Whether a reserved token may begin with b.
fn may_reserve(b: u8) -> bool
    ensures { result ≡ may_reserve b }
{
    matches!(b, b'*' | b'@' | b'E' | 0xC2)
}

// Whether a reserved byte stands bare in s: first whether such a token can begin anywhere.
pub fn has_reserved(s: &[u8]) -> bool
    ensures { result ≡ any_reserved (items s.now) }
{
    s.iter().any(|b| may_reserve(*b)) && items_of(s).any(is_refused)
}

fn is_mark(m: Mark, t: Item) -> bool
    ensures { result ≡ (weight m t == 1) }
{
    matches!(t, Item::Symbol(k) if k == m)
}

// The byte that the mark m begins with.
fn mark_byte(m: Mark) -> u8
    ensures { result ≡ mark_byte m }
{
    match m {
        Mark::Minus => b'-',
        Mark::Plus => b'+',
        Mark::Percent => b'%',
        Mark::Permille => 0xE2,
    }
}

// How often the mark m stands in s: not at all where its first byte does not.
pub fn count_marks(m: Mark, s: &[u8]) -> usize
    ensures { (result ≡ marks m (items s.now)) × (result ≤ length s.now) }
{
    if s.contains(&mark_byte(m)) {
        items_of(s).filter(|t| is_mark(m, *t)).count()
    } else {
        0
    }
}
