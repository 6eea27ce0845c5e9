// The types of inodes.
ghost use Rattle.std.specs.Prelude.{◌≡◌};
ghost use Rattle.layout.specs.Kinds.{kind_named};

// What a record's first byte says. Any byte may stand there, and only the first four types are consistent.
#[derive(Clone, Copy, PartialEq, Eq)]
pub enum Kind {
    Free,
    File,
    Directory,
    Symlink,
    Unknown(u8),
}

impl From<u8> for Kind {
    ghost from_gives = { λ n r. r ≡ kind_named n };

    fn from(number: u8) -> Kind {
        match number {
            0 => Kind::Free,
            1 => Kind::File,
            2 => Kind::Directory,
            3 => Kind::Symlink,
            _ => Kind::Unknown(number),
        }
    }
}
