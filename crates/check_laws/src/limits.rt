// The limits of admitted numbers, which are crate number's, with the counts that follow from them.
pub const MAX_EXPONENT: u64 = number::MAX_EXPONENT;

// past the largest: no number was found
pub const NO_EXPONENT: u8 = 15;

pub const MAX_PLACES: u64 = number::MAX_PLACES as u64;

// 10^15: i is below it
pub const INTEGER_LIMIT: u64 = number::INTEGER_LIMIT;

// 10^9: f is below it, and v * 10^9 + f is v and f as one number, of which there are so many
pub const FRACTION_LIMIT: u64 = 1_000_000_000;

pub const FRACTIONS: u64 = 10_000_000_000;
