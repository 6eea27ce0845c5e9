// One component of a path: what is asked of it, and how it leaves the walk.
#![tactic(auto)]

pub mod state;
pub mod step;
