// Requests and their flags, the groups of a caller, permission, names looked up, portable names, and the components of a path.
#![tactic(auto)]

pub mod find;
pub mod flags;
pub mod groups;
pub mod path;
pub mod permission;
pub mod portable;
pub mod request;
