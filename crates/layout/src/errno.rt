// Why a job is refused: the errors of POSIX under their names, numbered as on Linux, and our own.
ghost use Rattle.std.specs.Prelude.{◌≡◌};
ghost use Rattle.layout.specs.Code.{number, code};

#[derive(Clone, Copy, PartialEq, Eq)]
pub enum Errno {
    EPERM = 1,
    ENOENT = 2,
    EBADF = 9,
    EACCES = 13,
    EBUSY = 16,
    EEXIST = 17,
    EXDEV = 18,
    ENOTDIR = 20,
    EISDIR = 21,
    EINVAL = 22,
    ENOSPC = 28,
    EROFS = 30,
    EMLINK = 31,
    ENAMETOOLONG = 36,
    ENOTEMPTY = 39,
    ELOOP = 40,
    // An image that is not consistent, or has no good layout.
    Inconsistent = 201,
    // A request whose current directory is none, or with a zero byte in a path.
    WrongRequest = 202,
    // A journal record that is not zero.
    JournalPending = 203,
    // A journal record that fits no operation, or an outcome that is not consistent.
    NotRecoverable = 204,
    // A buffer that is too short.
    ShortBuffer = 205,
    // A row that cannot be applied.
    BadRow = 207,
}

impl From<Errno> for u8 {
    ghost from_gives = { λ e r. r ≡ number e };

    fn from(e: Errno) -> u8 {
        e as u8
    }
}

// The number that a job is answered with: 0 where it is done.
pub fn number<T>(answer: &Result<T, Errno>) -> u8
    ensures { result ≡ code answer.now }
{
    match answer {
        Ok(_) => 0,
        Err(e) => u8::from(*e),
    }
}
