// Powers of ten.
ghost use Rattle.std.specs.Prelude.{◌≡◌, ◌^◌, ◌≤◌};

// The powers of ten from 10^0 on: a look costs less than a multiplication for each place.
const TENS: [u64; 19] = [
    1,
    10,
    100,
    1000,
    10_000,
    100_000,
    1_000_000,
    10_000_000,
    100_000_000,
    1_000_000_000,
    10_000_000_000,
    100_000_000_000,
    1_000_000_000_000,
    10_000_000_000_000,
    100_000_000_000_000,
    1_000_000_000_000_000,
    10_000_000_000_000_000,
    100_000_000_000_000_000,
    1_000_000_000_000_000_000,
];

// 10^k.
pub fn power(k: u64) -> u64
    requires { k ≤ 18 }
    ensures { result ≡ 10 ^ k }
{
    TENS[k as usize]
}
