// What a well-formed pack is, and what reading it answers: definitions (specs/), theorems (proofs/) and
// document 01's limits as constants (specs/Limits.antt), no function.
#![tactic(auto)]

pub const MAX_BYTES: usize = 4096;

pub const MAX_CLAUSES: usize = 8;

pub const MAX_RELATIONS: usize = 8;

pub const MAX_RANGES: usize = 16;

pub const MAX_VALUE: u32 = 999_999;
