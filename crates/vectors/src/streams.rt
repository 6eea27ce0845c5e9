// A file of cases, and where the answers go. Neither has a buffer: so nothing is allocated, and what is told of a fault stands behind the
// lines before it.
use crate::fault::Fault;
use std::fs::File;
use std::io::{Read, Stdout};

#[derive(Drop)]
pub struct Streams {
    pub file: File,
    pub lines: Stdout,
}

impl Streams {
    // Reads the tag of the next item; there is none where the file ends.
    pub fn tag(&mut self) -> Result<Option<u8>, Fault> {
        let mut tag = [0; 1];
        let count = self.file.read(&mut tag).map_err(Fault::Item)?;
        Ok((count != 0).then_some(tag[0]))
    }

    // Fills the buffer with the next bytes of an item.
    pub fn fill(&mut self, buf: &mut [u8]) -> Result<(), Fault> {
        self.file
            .read_exact(buf)
            .map_err(|_| Fault::Wrong("the file ends inside an item"))
    }

    // Reads so many bytes of an item, of which a number is made.
    pub fn bytes<const N: usize>(&mut self) -> Result<[u8; N], Fault> {
        let mut bytes = [0; N];
        self.fill(&mut bytes)?;
        Ok(bytes)
    }

    // Reads the bytes of a number that not every case has; it is 0 where it is not there.
    pub fn bytes_if<const N: usize>(&mut self, there: bool) -> Result<[u8; N], Fault> {
        if there { self.bytes() } else { Ok([0; N]) }
    }
}
