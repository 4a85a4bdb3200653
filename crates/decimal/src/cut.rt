// Parts of a text.
ghost use Rattle.std.specs.Prelude.{◌≡◌, take, drop};
ghost use Rattle.decimal.specs.Digits.{begins};

// The text from place a on: empty where it has no such place.
pub fn after(s: &[u8], a: usize) -> &[u8]
    ensures { result.now ≡ drop a s.now }
{
    s.get(a..).unwrap_or(b"")
}

// The first a bytes of the text: all of it where it is shorter.
pub fn upto(s: &[u8], a: usize) -> &[u8]
    ensures { result.now ≡ take a s.now }
{
    s.get(..a).unwrap_or(s)
}

pub fn begins_with(s: &[u8], b: u8) -> bool
    ensures { result ≡ begins b s.now }
{
    s.first() == Some(&b)
}
