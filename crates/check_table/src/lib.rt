// The table of next numbers of a clause: its levels, built one above the other.
//
// A level's segments are found one by one, each as the least number of a window that the relations of
// the level allow and that passes the levels below it. The work depends on the ranges and not on the
// window. Crate check_next has the table's layout and the next number of it. The entries are build of
// module level, and find of module find, which searches any window by a table that stands.
#![tactic(auto)]

pub mod find;
pub mod level;

// A number that is found, and up to where the relations of its level hold.
#[derive(Clone, Copy)]
pub struct Found {
    pub at: u64,
    pub stop: u64,
}

// What became of a table: it stands, or no number passes its levels, or there was no room.
#[derive(Clone, Copy)]
pub enum Built {
    Stands,
    Empty,
    Full,
}
