// What the search for the least number of a clause asks beside relations: the v that a profile leaves,
// floors, and the order of what is found.
//
// Crate check_laws has the definitions, crate check_profile the profiles. The entries are raise of module
// floor, nowhere and earlier of module order, and opens, whole_code, settled_places, tail_places and
// least_room of module places.
#![tactic(auto)]

pub mod floor;
pub mod order;
pub mod places;
