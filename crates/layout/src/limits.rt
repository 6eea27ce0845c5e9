// The sizes and limits of the format and of the rules, each named once.

// The table of contents.
pub const CONTENTS_BYTES: usize = 40;

// One record of each section; an entry's are those of the first edition.
pub const INODE_BYTES: usize = 32;

pub const ENTRY_BYTES: usize = 32;

pub const TEXT_BYTES: usize = 64;

pub const HANDLE_BYTES: usize = 8;

pub const JOURNAL_BYTES: usize = 32;

// Where in an entry its name begins, and the bytes that a record has for a text.
pub const NAME_OFFSET: usize = 8;

pub const TEXT_ROOM: usize = 63;

// Nothing on a file system of this number or a higher one is changed.
pub const FIRST_READ_ONLY: u8 = 128;

// The number that names no replaced inode and no text.
pub const ABSENT: usize = 65535;

// The most records of a section; the most entries are those of the first edition.
pub const INODE_LIMIT: usize = 512;

pub const ENTRY_LIMIT: usize = 1024;

pub const TEXT_LIMIT: usize = 64;

pub const HANDLE_LIMIT: usize = 16;

// Modes are below this, and no inode has more links.
pub const MODE_LIMIT: usize = 4096;

pub const LINK_LIMIT: usize = 64;

// The bit of a mode by which a directory is sticky.
pub const STICKY_BIT: usize = 512;

// The start that stands for the current directory.
pub const NO_HANDLE: usize = 255;

// The most groups of a caller beside the effective one.
pub const GROUP_LIMIT: usize = 16;

// The longest path, as supplied and with a symlink's text in it, and the bytes of a working path.
pub const PATH_LIMIT: usize = 255;

pub const PATH_BYTES: usize = 256;

// The symlinks that one path may lead through.
pub const SYMLINK_LIMIT: usize = 40;
