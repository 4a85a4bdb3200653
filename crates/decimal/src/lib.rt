// Decimal digits in byte texts: cutting and scanning texts, the value of digits, writing digits.
//
// Every function is total: it takes any bytes and any numbers. A value is that of a digit list
// (specs/Digits.antt), exact below 10^18 and kept at 10^18 from there on.
#![tactic(auto)]

pub mod cut;
pub mod figure;
pub mod num;
pub mod scan;
pub mod value;

// A count of digit places: document 01's v and w.
#[derive(Clone, Copy, PartialEq, Eq, PartialOrd, Ord)]
pub struct Places(pub u8);

// The value that digits spell: document 01's f and t.
#[derive(Clone, Copy, PartialEq, Eq, PartialOrd, Ord)]
pub struct DigitValue(pub u64);
