// A tag's list in a sound workspace, in place: its block read, the list changed there, or moved to a block of another class.
#![tactic(auto)]

pub mod change;
pub mod here;
pub mod read;
