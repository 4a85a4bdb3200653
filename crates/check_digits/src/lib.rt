// What a relation leaves, as bits: the e, the v or w at which it holds, and the last digits of the
// numbers that it may hold of.
//
// Crate check_laws has the definitions (specs/Profile.antt). The entries are
// bits_where, exponents_of, places_of, zero_of, is_free and between of module values, and digits_of of
// module digits.
#![tactic(auto)]

pub mod digits;
pub mod values;
