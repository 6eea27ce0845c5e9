// Why the reading of a file of cases stops before its end.
use std::{fmt, io};

#[derive(Drop)]
pub enum Fault {
    // An answer cannot be written: this alone ends the program too.
    Output(io::Error),
    // The place where an item may begin cannot be read.
    Item(io::Error),
    // The file is not as it has to be.
    Wrong(&'static str),
}

// What writing answers is passed on by `?` alone. Whoever reads says what the error means.
impl From<io::Error> for Fault {
    fn from(e: io::Error) -> Fault {
        Fault::Output(e)
    }
}

impl fmt::Display for Fault {
    fn fmt<W: fmt::Write>(&self, f: &mut fmt::Formatter<W>) -> fmt::Result {
        match self {
            Fault::Output(e) => write!(f, "an answer cannot be written: {e}"),
            Fault::Item(e) => write!(f, "an item cannot be read: {e}"),
            Fault::Wrong(sentence) => f.write_str(sentence),
        }
    }
}
