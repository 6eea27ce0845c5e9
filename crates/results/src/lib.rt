// What a rename leaves in each record that it touches, by recount of the entries as it edits them.
#![tactic(auto)]

pub mod records;
pub mod rows;
