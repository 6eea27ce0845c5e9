// The case that a rename or an exchange is judged by, and the answers.
use paths::request::Credentials;

// What both walks have found, and who asks: the inode that moves, from slot old of directory from to slot new of directory into; the inode
// that it replaces there, or limits::ABSENT, and then new is the lowest free slot, or the number of slots where none is free; whether new's path
// ends in a slash; the caller and the current directory.
#[derive(Clone, Copy)]
pub struct Case {
    pub old: usize,
    pub new: usize,
    pub moved: usize,
    pub replaced: usize,
    pub from: usize,
    pub into: usize,
    pub slash: bool,
    pub who: Credentials,
    pub current: usize,
}

// What is to be done about a call that nothing refuses: nothing since both names are of one file, or the rows of a rename or of an exchange.
#[derive(Clone, Copy, PartialEq, Eq)]
pub enum Verdict {
    Same,
    Planned,
    Exchanged,
}
