// Writing decimal digits.
ghost use Rattle.std.specs.Prelude.{◌≡◌, length};
ghost use Rattle.decimal.specs.Digits.{figures};

// Fills out with the last decimal digits of n, as many as it has room for.
pub fn write_figures(out: &mut [u8], n: u64)
    ensures { out.new ≡ figures (length out.old) n }
{
    out.fill(b'0');
    let mut m = n;
    // By index: no clause says what writes through a slice's `iter_mut` leave.
    for i in (0..out.len()).rev() {
        if m == 0 {
            return;
        }
        out[i] = b'0' + (m % 10) as u8;
        m /= 10;
    }
}
