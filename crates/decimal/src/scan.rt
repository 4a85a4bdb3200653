// Runs of digits and zeros.
ghost use Rattle.std.specs.Prelude.{◌≡◌, ◌≤◌, length};
ghost use Rattle.decimal.specs.Digits.{is_digit, run, lead, trim};
ghost use Rattle.decimal.specs.Split.{until};

pub fn is_digit(b: u8) -> bool
    ensures { result ≡ is_digit b }
{
    b.is_ascii_digit()
}

// How many digits s begins with.
pub fn digit_run(s: &[u8]) -> usize
    ensures { (result ≡ run s.now) × (result ≤ length s.now) }
{
    s.iter().take_while(|b| is_digit(**b)).count()
}

// How many zeros s begins with.
pub fn leading_zeros(s: &[u8]) -> usize
    ensures { (result ≡ lead s.now) × (result ≤ length s.now) }
{
    s.iter().take_while(|b| **b == b'0').count()
}

// How many of the digits of s are left without the trailing zeros.
pub fn trimmed_len(s: &[u8]) -> usize
    ensures { (result ≡ length (trim s.now)) × (result ≤ length s.now) }
{
    s.len() - s.iter().rev().take_while(|b| **b == b'0').count()
}

// How many bytes of s stand before the first b.
pub fn run_until(s: &[u8], b: u8) -> usize
    ensures { (result ≡ until b s.now) × (result ≤ length s.now) }
{
    s.iter().position(|x| *x == b).unwrap_or(s.len())
}
