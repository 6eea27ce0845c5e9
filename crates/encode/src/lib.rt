// The writers: numbers, and the records that hold them.
#![tactic(auto)]

pub mod entry;
pub mod inode;
pub mod journal;
pub mod number;
pub mod record;
