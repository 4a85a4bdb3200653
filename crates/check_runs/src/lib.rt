// Runs of clauses: how far a clause says the same of the numbers from one on, level by level.
//
// A clause is one or two stretches of a pack's relations; crate check_relation has the run of one
// relation. The entries are clause_run and passes_at of module
// clause, and mark_levels and list_level of module marks.
#![tactic(auto)]

pub mod clause;
pub mod marks;

// How many relations of a clause have room for what is kept of each.
pub const KEPT: usize = 16;

// What is kept of each relation of a clause at a level: the run that was found last. Two arrays, since the
// definition Kept speaks of each; of fixed size, since there is no heap.
#[derive(Drop)]
pub struct Runs {
    pub says: [bool; KEPT],
    pub stop: [u64; KEPT],
}

// The levels that a clause asks, and the level of each of its relations. Of fixed size, since there is no heap.
#[derive(Drop)]
pub struct LevelMarks {
    pub asked: [bool; 9],
    pub tiers: [usize; KEPT],
}

// The relations of a clause that are of one level: the first `count` of `at`, since there is no heap.
#[derive(Drop)]
pub struct LevelList {
    pub level: usize,
    pub count: usize,
    pub at: [usize; KEPT],
}
