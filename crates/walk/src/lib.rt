// The walk of a path from its start to its end, and both walks of a request.
#![tactic(auto)]

pub mod both;
pub mod resolve;
pub mod start;
