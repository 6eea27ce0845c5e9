// Two strings of bytes compared by pieces of eight, the last as short as the strings leave it.
ghost use Rattle.std.specs.Prelude.{◌≡◌, false, ◌+◌, ◌-◌, ◌*◌, ◌/◌, ◌≤◌, ◌<◌, length};
ghost use Rattle.seq.specs.Search.{any};
ghost use Rattle.seq.specs.Bytes.{part, equal_bytes};
ghost use Rattle.seq.specs.Compare.{piece_size, piece_differs, Compares};

use crate::number;

// The bytes of a piece but for the last.
const PIECE_SIZE: usize = 8;

// Whether two strings are the same, and how many pieces were read to tell.
#[derive(Clone, Copy)]
pub struct Compared {
    pub same: bool,
    pub pieces: usize,
}

// Whether the whole piece from at on is the same in both: each is read as one number, since `==` of two such slices would be a call.
fn same_piece(a: &[u8], b: &[u8], at: usize) -> bool
    requires { (at + piece_size ≤ length a.now) × (at + piece_size ≤ length b.now) }
    ensures { result ≡ equal_bytes (part a.now at piece_size) (part b.now at piece_size) }
{
    number::get64(a, at) == number::get64(b, at)
}

// Whether four bytes from at on are, and two: the ends of a shorter piece.
fn same_four(a: &[u8], b: &[u8], at: usize) -> bool
    requires { (at + 4 ≤ length a.now) × (at + 4 ≤ length b.now) }
    ensures { result ≡ equal_bytes (part a.now at 4) (part b.now at 4) }
{
    number::get32(a, at) == number::get32(b, at)
}

fn same_two(a: &[u8], b: &[u8], at: usize) -> bool
    requires { (at + 2 ≤ length a.now) × (at + 2 ≤ length b.now) }
    ensures { result ≡ equal_bytes (part a.now at 2) (part b.now at 2) }
{
    number::get16(a, at) == number::get16(b, at)
}

// Whether a shorter piece, from at up to n, is the same in both: a number is read at either end, and the two reach over its middle.
fn same_short(a: &[u8], b: &[u8], at: usize, n: usize) -> bool
    requires { (at < n) × (n < at + piece_size) × (n ≤ length a.now) × (n ≤ length b.now) }
    ensures { result ≡ equal_bytes (part a.now at (n - at)) (part b.now at (n - at)) }
{
    if 4 <= n - at {
        same_four(a, b, at) && same_four(a, b, n - 4)
    } else if 2 <= n - at {
        same_two(a, b, at) && same_two(a, b, n - 2)
    } else {
        a[at..n] == b[at..n]
    }
}

// All whole pieces are the same: what is behind them decides.
fn last(a: &[u8], b: &[u8], whole: usize) -> Compared
    requires { (length a.now ≡ length b.now) × (whole ≡ length a.now / piece_size) × (any (piece_differs a.now b.now) whole ≡ false) }
    ensures { Compares a.now b.now result.same result.pieces }
{
    let at = PIECE_SIZE * whole;
    let n = a.len();
    if at == n {
        return Compared {
            same: true,
            pieces: whole,
        };
    }
    let pieces = whole + 1;
    Compared {
        same: same_short(a, b, at, n),
        pieces,
    }
}

// Leaves at once where the lengths differ, and else at the first piece that does.
pub fn compare(a: &[u8], b: &[u8]) -> Compared
    ensures { Compares a.now b.now result.same result.pieces }
{
    if a.len() != b.len() {
        return Compared {
            same: false,
            pieces: 0,
        };
    }
    let whole = a.len() / PIECE_SIZE;
    match (0..whole).position(|k| !same_piece(a, b, PIECE_SIZE * k)) {
        Some(k) => Compared {
            same: false,
            pieces: k + 1,
        },
        None => last(a, b, whole),
    }
}
