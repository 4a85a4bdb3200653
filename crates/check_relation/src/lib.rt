// A relation: what it says of a value, and how far it says the same of the numbers from one on.
//
// A relation's ranges may stand in any order, overlap and repeat: one pass over them tells whether a
// value is in one of them, and up to where it is so. Crate check_laws has the levels of relations
// (specs/Levels.antt). The entries are those of module relation:
// holds_of for one value, own_run for a run at a level, passes_of for the number searched for, and
// factor_of and level_of.
#![tactic(auto)]

pub mod range;
pub mod relation;

// The same is said of every number from one on that is before `stop`.
#[derive(Clone, Copy)]
pub struct Run {
    pub says: bool,
    pub stop: u64,
}

// Past every number that is asked; where nothing ends a run, it ends here.
pub const FAR: u64 = 4_000_000_000_000_000_000;
