// Tokens of a pack: how long the white space or the token is that stands at a place, and what it is.
//
// specs/Token.antt says what the tokens of a text are. Every function is total: it takes any bytes
// and any place.
#![tactic(auto)]

ghost use Rattle.std.specs.Prelude.{◌≡◌, ltb, get_or, drop, if◌then◌else◌};
ghost use Rattle.pack_token.specs.Spelling.{same, starts, length_of};
ghost use Rattle.pack_token.specs.Token.{whites, white_len, is_letter, letters, token_len, Skipped};

use decimal::cut::after;
use decimal::scan::digit_run;

// The bytes of w stand at a place of s.
#[tactic(auto, using(crate::proofs::Spellings::prefix_starts))]
pub fn same_at(s: &[u8], at: usize, w: &[u8]) -> bool
    ensures { result ≡ starts w.now (drop at s.now) }
{
    after(s, at).starts_with(w)
}

// The text t is w.
#[tactic(auto, using(crate::proofs::Spellings::pointwise_same))]
pub fn same_text(t: &[u8], w: &[u8]) -> bool
    ensures { result ≡ same t.now w.now }
{
    t == w
}

// The first byte of a text, or 0.
pub fn first_byte(s: &[u8]) -> u8
    ensures { result ≡ get_or s.now 0 0 }
{
    s.first().copied().unwrap_or(0)
}

// How long the white space of several bytes is that s begins with, or 0.
fn wide_len(s: &[u8]) -> usize
    ensures { result ≡ length_of (drop 6 whites) s.now }
{
    match s {
        [0xC2, 0x85, ..] => 2,
        [0xE2, 0x80, 0x8E | 0x8F | 0xA8 | 0xA9, ..] => 3,
        _ => 0,
    }
}

// How long the white space at a place is: one code point, or 0. Most bytes are told by the first arm or
// the last.
pub fn white_len(s: &[u8], at: usize) -> usize
    ensures { result ≡ white_len (drop at s.now) }
{
    match after(s, at) {
        [b'\t'..=b'\r' | b' ', ..] => 1,
        [0x80..=0xFF, ..] => wide_len(after(s, at)),
        _ => 0,
    }
}

pub fn is_letter(b: u8) -> bool
    ensures { result ≡ is_letter b }
{
    b.is_ascii_lowercase()
}

// How many letters s begins with.
fn letter_run(s: &[u8]) -> usize
    ensures { result ≡ letters s.now }
{
    s.iter().take_while(|b| is_letter(**b)).count()
}

// How long the token is that s begins with.
fn token_len(s: &[u8]) -> usize
    ensures { result ≡ token_len s.now }
{
    match s {
        [b'a'..=b'z', ..] => letter_run(s),
        [b'0'..=b'9', ..] => digit_run(s),
        [b'.', b'.', ..] | [b'!', b'=', ..] => 2,
        _ => 1,
    }
}

// How long the piece at a place is, where its white space is so long: the white space or the token.
pub fn piece_len(s: &[u8], at: usize, white: usize) -> usize
    ensures { result ≡ (if ltb 0 white then white else token_len (drop at s.now)) }
{
    if 0 < white {
        white
    } else {
        token_len(after(s, at))
    }
}

// Where the white space ends that stands at a place.
pub fn skip_white(s: &[u8], from: usize) -> usize
    ensures { Skipped s.now from result }
{
    let mut at = from;
    // By place: the step depends on how many bytes spell what is read.
    while at < s.len() {
        let n = white_len(s, at);
        if n == 0 {
            return at;
        }
        at += n;
    }
    at
}
