// Where in an image of a shape the records of each section begin.
ghost use Rattle.std.specs.Prelude.{◌≡◌, ◌<◌};
ghost use Rattle.seq.specs.Number.{span};
ghost use Rattle.layout.specs.Place.{place, image_bytes};

use crate::Shape;
use crate::limits::{CONTENTS_BYTES, HANDLE_BYTES, INODE_BYTES, TEXT_BYTES};

// Each asks for an image whose length the machine can count, and for no image.
impl Shape {
    pub fn inode_place(self, i: usize) -> usize
        requires { (image_bytes self < span 8) × (i < self.inodes) }
        ensures { result ≡ place self 0 i }
    {
        CONTENTS_BYTES + INODE_BYTES * i
    }

    pub fn entry_place(self, j: usize) -> usize
        requires { (image_bytes self < span 8) × (j < self.entries) }
        ensures { result ≡ place self 1 j }
    {
        CONTENTS_BYTES + INODE_BYTES * self.inodes + self.width * j
    }

    pub fn text_place(self, t: usize) -> usize
        requires { (image_bytes self < span 8) × (t < self.texts) }
        ensures { result ≡ place self 2 t }
    {
        CONTENTS_BYTES + INODE_BYTES * self.inodes + self.width * self.entries + TEXT_BYTES * t
    }

    pub fn handle_place(self, n: usize) -> usize
        requires { (image_bytes self < span 8) × (n < self.handles) }
        ensures { result ≡ place self 3 n }
    {
        CONTENTS_BYTES
            + INODE_BYTES * self.inodes
            + self.width * self.entries
            + TEXT_BYTES * self.texts
            + HANDLE_BYTES * n
    }

    pub fn journal_place(self) -> usize
        requires { image_bytes self < span 8 }
        ensures { result ≡ place self 4 0 }
    {
        CONTENTS_BYTES
            + INODE_BYTES * self.inodes
            + self.width * self.entries
            + TEXT_BYTES * self.texts
            + HANDLE_BYTES * self.handles
    }
}
