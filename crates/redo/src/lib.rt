// The redo log over pages: entries written and replayed as far as an allowance of stores goes, and the stages of commit and recover.
// Its functions are told how many stores are left and which sizes the head gives; the calls of `image_log` judge the image first.
#![tactic(auto)]

pub mod entry;
pub mod meter;
pub mod sizes;
pub mod stages;
