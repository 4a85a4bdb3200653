// Reads the bytes of a pattern as items: literal text, symbols to print, number-part bytes, quotes.
//
// specs/Items.antt says which item stands where. A new item is a line in the enum, in bare or token_at
// and in their definitions.
#![tactic(auto)]

ghost use Rattle.std.specs.Prelude.{◌≡◌, ◌+◌, ◌≤◌, ◌<◌, length, drop};
ghost use Rattle.std.specs.Iterator.{YieldsFirst, item_count};
ghost use Rattle.pattern_token.specs.Items.{is_place, bare_of, token_at, quoted_after, is_number, items, items_left};

use decimal::cut;

// A mark of an affix, which prints a symbol.
#[derive(Clone, Copy, PartialEq, Eq)]
pub enum Mark {
    Minus,
    Plus,
    Percent,
    Permille,
}

// What a token of a pattern stands for.
#[derive(Clone, Copy)]
pub enum Item {
    Text(u8),
    Symbol(Mark),
    Place(u8),
    Quote,
    Semicolon,
    Reserved,
}

#[derive(Clone, Copy)]
pub struct Token {
    pub item: Item,
    pub width: usize,
}

pub fn is_place(b: u8) -> bool
    ensures { result ≡ is_place b }
{
    matches!(b, b'#' | b',' | b'.' | b'0'..=b'9')
}

// A byte outside quotes.
fn bare(number: bool, b: u8) -> Item
    ensures { result ≡ bare_of number b }
{
    match b {
        b'%' => Item::Symbol(Mark::Percent),
        b'+' => Item::Symbol(Mark::Plus),
        b'-' => Item::Symbol(Mark::Minus),
        b';' => Item::Semicolon,
        b'*' | b'@' => Item::Reserved,
        b'E' if number => Item::Reserved,
        _ if is_place(b) => Item::Place(b),
        _ => Item::Text(b),
    }
}

// The token that s begins with; a text with no byte counts as a byte 0.
fn token_at(quoted: bool, number: bool, s: &[u8]) -> Token
    ensures { result ≡ token_at quoted number s.now }
{
    let (item, width) = match s {
        [] => (Item::Text(0), 1),
        [b'\'', b'\'', ..] => (Item::Text(b'\''), 2),
        [b'\'', ..] => (Item::Quote, 1),
        [b, ..] if quoted => (Item::Text(*b), 1),
        [0xE2, 0x80, 0xB0, ..] => (Item::Symbol(Mark::Permille), 3),
        [0xC2, 0xA4, ..] => (Item::Reserved, 2),
        [b, ..] => (bare(number, *b), 1),
    };
    Token { item, width }
}

// The token at a place of s, inside quotes or not, directly after a bare number-part byte or not.
pub fn token_in(s: &[u8], at: usize, quoted: bool, number: bool) -> Token
    ensures value { result ≡ token_at quoted number (drop at s.now) }
    ensures le_width { at < length s.now → (1 ≤ result.width) × (at + result.width ≤ length s.now) }
{
    token_at(quoted, number, cut::after(s, at))
}

pub fn quoted_after(q: bool, t: Item) -> bool
    ensures { result ≡ quoted_after q t }
{
    match t {
        Item::Quote => !q,
        _ => q,
    }
}

pub fn is_number(t: Item) -> bool
    ensures { result ≡ is_number t }
{
    matches!(t, Item::Place(_))
}

// The items of a pattern, one after the other: the bytes still to read, and whether they stand in
// quotes, and directly after a bare number-part byte.
#[derive(Clone, Copy)]
pub struct Tokens<'a> {
    pub rest: &'a [u8],
    pub quoted: bool,
    pub number: bool,
}

// The items of s.
pub fn items_of(s: &[u8]) -> Tokens<'_>
    ensures { items_left result ≡ items s.now }
{
    Tokens {
        rest: s,
        quoted: false,
        number: false,
    }
}

impl<'a> Iterator for Tokens<'a> {
    type Item = Item;

    ghost next_gives = { YieldsFirst items_left };

    ghost remaining = { item_count items_left };

    fn next(&mut self) -> Option<Item> {
        if self.rest.is_empty() {
            return None;
        }
        let Token { item, width } = token_in(self.rest, 0, self.quoted, self.number);
        self.rest = cut::after(self.rest, width);
        self.quoted = quoted_after(self.quoted, item);
        self.number = is_number(item);
        Some(item)
    }
}
