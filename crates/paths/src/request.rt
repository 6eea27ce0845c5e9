// A request: who asks, from where, when, and for which form of a rename.
ghost use Rattle.std.specs.Prelude.{◌≡◌};
ghost use Rattle.layout.specs.Seen.{seen};
ghost use Rattle.paths.specs.Request.{request_good};

use layout::image::Image;
use layout::limits;

// Who asks: the effective user and group, and further groups, of which the first `count` are the caller's.
#[derive(Clone, Copy)]
pub struct Credentials {
    pub user: u32,
    pub group: u32,
    pub groups: [u32; limits::GROUP_LIMIT],
    pub count: usize,
}

// Where relative paths begin, old and new: a handle's number, or 255 for the current directory.
#[derive(Clone, Copy)]
pub struct Starts {
    pub old: u8,
    pub new: u8,
}

// A request but for its two paths, which are handed over beside it.
#[derive(Clone, Copy)]
pub struct Request {
    pub who: Credentials,
    pub current: u16,
    pub starts: Starts,
    pub now: u64,
    pub flags: u32,
}

// Whether the current directory is one, neither path holds a zero byte, and the further groups are not too many.
#[tactic(auto, unfolding(crate::specs::Request::request_good))]
pub fn good(image: &Image<'_>, q: Request, old: &[u8], new: &[u8]) -> bool
    ensures { result ≡ request_good (seen image.now) q old.now new.now }
{
    image.is_directory(usize::from(q.current))
        && layout::bytes::no_zero(old)
        && layout::bytes::no_zero(new)
        && q.who.count <= limits::GROUP_LIMIT
}
