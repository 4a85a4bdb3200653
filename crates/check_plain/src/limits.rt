// Limits as this crate counts them.
use check_laws::limits;

pub const MAX_EXPONENT: u8 = limits::MAX_EXPONENT as u8;

pub const MAX_PLACES: u8 = limits::MAX_PLACES as u8;
