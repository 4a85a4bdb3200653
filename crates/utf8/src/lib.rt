// UTF-8: how long the code point is that a text begins with, and whether a text is code points alone.
//
// Every function is total. specs/Utf8.antt says which bytes are UTF-8, specs/Scalar.antt which bytes
// spell a code point.
#![tactic(auto)]

ghost use Rattle.std.specs.Prelude.{◌≡◌, ◌≤◌, ◌<◌, length};
ghost use Rattle.utf8.specs.Utf8.{char_bytes, low_second, high_second, continues, rest_fits, char_len, is_utf8, is_char};

// How many bytes a code point has that begins with b, or 0.
fn char_bytes(b: u8) -> usize
    ensures { (result ≡ char_bytes b) × (result ≤ 4) }
{
    match b {
        0x00..=0x7F => 1,
        0xC2..=0xDF => 2,
        0xE0..=0xEF => 3,
        0xF0..=0xF4 => 4,
        _ => 0,
    }
}

fn low_second(b: u8) -> u8
    ensures { result ≡ low_second b }
{
    match b {
        0xE0 => 0xA0,
        0xF0 => 0x90,
        _ => 0x80,
    }
}

fn high_second(b: u8) -> u8
    ensures { result ≡ high_second b }
{
    match b {
        0xED => 0x9F,
        0xF4 => 0x8F,
        _ => 0xBF,
    }
}

// Whether the bytes of s are from 80 to BF.
fn all_continue(s: &[u8]) -> bool
    ensures { result ≡ continues s.now }
{
    s.iter().all(|b| matches!(b, 0x80..=0xBF))
}

// Whether the bytes s may stand behind the first byte b.
fn rest_fits(b: u8, s: &[u8]) -> bool
    requires { 0 < length s.now }
    ensures { result ≡ rest_fits b s.now }
{
    low_second(b) <= s[0] && s[0] <= high_second(b) && all_continue(&s[1..])
}

// How many bytes the code point has that s begins with, or 0.
pub fn char_len(s: &[u8]) -> usize
    ensures { (result ≡ char_len s.now) × (result ≤ length s.now) }
{
    let Some(&b) = s.first() else {
        return 0;
    };
    let n = char_bytes(b);
    if n <= s.len() && (n < 2 || rest_fits(b, &s[1..n])) {
        n
    } else {
        0
    }
}

// Whether s is code points one after the other.
pub fn is_utf8(s: &[u8]) -> bool
    ensures { result ≡ is_utf8 s.now }
{
    let mut rest = s;
    while !rest.is_empty() {
        let n = char_len(rest);
        if n == 0 {
            return false;
        }
        rest = &rest[n..];
    }
    true
}

// Whether s is one code point.
pub fn is_char(s: &[u8]) -> bool
    ensures { result ≡ is_char s.now }
{
    !s.is_empty() && char_len(s) == s.len()
}
