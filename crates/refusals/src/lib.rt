// What the orders of refusal of a rename and of an exchange share once both walks are whole: the case, the answers, what is asked of the
// parents, and of a directory that gets another one.
#![tactic(auto)]

pub mod case;
pub mod parents;
pub mod reparented;
