// Tells the pack that is `other:` alone. Its rules are known without reading it, and so without the
// arrays of a parsed pack (`bare_read`, proofs/Bares.antt).
//
// A text whose first token is not `other` is left there: most packs are told by one word.
#![tactic(auto)]

ghost use Rattle.std.specs.Prelude.{◌≡◌, [], ◌∷◌, take, drop};
ghost use Rattle.pack_token.specs.Spelling.{same};
ghost use Rattle.pack_token.specs.Token.{token_len, tokens};
ghost use Rattle.pack_grammar.specs.Grammar.{colon};
ghost use Rattle.pack_grammar.specs.WellFormed.{texts};
ghost use Rattle.pack_bare.specs.Bare.{same_texts, is_bare};

use decimal::cut::{after, upto};
use pack_grammar::MAX_BYTES;
use pack_token::{piece_len, same_text, skip_white};

// The token at a place without white space is w.
fn token_is(s: &[u8], at: usize, w: &[u8]) -> bool
    ensures { result ≡ same (take (token_len (drop at s.now)) (drop at s.now)) w.now }
{
    same_text(upto(after(s, at), piece_len(s, at, 0)), w)
}

// From a place on there is no token.
fn ends(s: &[u8], from: usize) -> bool
    ensures { result ≡ same_texts (texts (tokens from (drop from s.now))) [] }
{
    s.len() <= skip_white(s, from)
}

// From a place on the one token is `:`.
fn ends_in_colon(s: &[u8], from: usize) -> bool
    ensures { result ≡ same_texts (texts (tokens from (drop from s.now))) (colon ∷ []) }
{
    let at = skip_white(s, from);
    token_is(s, at, b":") && ends(s, at + 1)
}

// Whether a text, any bytes, is the pack that is `other:` alone.
pub fn is_bare(text: &[u8]) -> bool
    ensures { result ≡ is_bare text.now }
{
    if MAX_BYTES < text.len() {
        return false;
    }
    let at = skip_white(text, 0);
    token_is(text, at, b"other") && ends_in_colon(text, at + 5)
}
