// Names of directory entries: the bytes of one, and two that share it.
#![tactic(auto)]

ghost use Rattle.std.specs.Prelude.{◌≡◌, ◌+◌, ◌≤◌, length};
ghost use Rattle.names.specs.Name.{plain_name, is_dots};
ghost use Rattle.names.specs.NameTests.{front_bytes, front_good, name_spelled};

use layout::limits;

pub mod pairs;

// The bytes of a name that an entry of every edition has room for.
const FRONT_BYTES: usize = 24;

// Whether no byte is 0 or a slash.
fn bytes_good(name: &[u8]) -> bool
    ensures { result ≡ plain_name name.now }
{
    name.iter().all(|b| *b != 0 && *b != b'/')
}

// Whether a name of n bytes in an entry's first 24 holds no 0 and no slash, and zeros follow it there. Every byte is looked at and no branch is taken, which is
// quicker than to leave at the first that is wrong.
fn front_good(e: &[u8], n: usize) -> bool
    requires { (32 ≤ length e.now) × (n ≤ front_bytes) }
    ensures { result ≡ front_good e.now n }
{
    let m = n as u8;
    let mut wrong = false;
    for k in 0..24u8 {
        let b = e[limits::NAME_OFFSET + (k as usize)];
        wrong = wrong | (b == b'/') | ((b != 0) != (k < m));
    }
    !wrong
}

// Whether a name of n bytes in an entry's room is plain, and zeros follow it to the end of the record.
pub fn spelled(e: &[u8], n: usize) -> bool
    requires { (32 ≤ length e.now) × (8 + n ≤ length e.now) }
    ensures { result ≡ name_spelled e.now n }
{
    if n <= FRONT_BYTES {
        front_good(e, n)
            && layout::bytes::all_zero(e, limits::ENTRY_BYTES, e.len() - limits::ENTRY_BYTES)
    } else {
        let at = limits::NAME_OFFSET;
        bytes_good(&e[at..at + n]) && layout::bytes::all_zero(e, at + n, e.len() - at - n)
    }
}

// Whether the name stands for the directory itself or for its parent.
#[tactic(auto, unfolding(crate::specs::Name::is_dots))]
pub fn is_dots(name: &[u8]) -> bool
    ensures { result ≡ is_dots name.now }
{
    layout::bytes::same(name, b".") || layout::bytes::same(name, b"..")
}
