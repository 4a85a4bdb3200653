// A pack's clauses, each looked at once before they are joined in pairs: where the last one ends, their
// profiles, and the floors of the long ones.
//
// Crate check_laws has the definitions (specs/Profile.antt, specs/Floors.antt). The
// entries are fill of module profiled, fill and pair_floors of module floors, and clauses_end of module
// ends.
#![tactic(auto)]

pub mod ends;
pub mod floors;
pub mod profiled;

use pack_rules::CLAUSE_ROOM;

// A number for each clause of a pack.
pub type PerClause = [u64; CLAUSE_ROOM];

// The floors of a pack's clauses, as crate check_laws has them of one. Three arrays, since the definition
// Floored speaks of each.
#[derive(Drop)]
pub struct ClauseFloors {
    pub whole: PerClause,
    pub part: PerClause,
    pub tail: PerClause,
}
