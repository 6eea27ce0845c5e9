// The walk of a whole path: where it begins, component after component, how it ends.
ghost use Rattle.std.specs.Prelude.{◌≡◌, true, ℕ, ◌≤◌, length};
ghost use Rattle.seq.specs.Bytes.{no_zero};
ghost use Rattle.layout.specs.Seen.{seen};
ghost use Rattle.paths.specs.WorkingPath.{working_path};
ghost use Rattle.layout.specs.Limits.{path_limit, step_limit};
ghost use Rattle.component.specs.State.{position_of, beginning, Fit};
ghost use Rattle.walk.specs.Walk.{halt, walk_from, begun, walk};
ghost use Rattle.walk.specs.Start.{begins};
ghost use Rattle.walk.specs.Answer.{answer_of, EndedBy, Ended, Answered};

use crate::start::Start;
use component::state;
use component::state::{Final, Found, Leave, Walk};
use layout::errno::Errno;
use layout::limits;
use layout::tree::Tree;
use paths::path;
use paths::request::Credentials;

// How a walk ended: the component checks begun; what the path names, unless the walk was refused; and the working path, which a missing
// name is a range of.
#[derive(Clone, Copy)]
pub struct Walked<R = Errno> {
    pub steps: usize,
    pub found: Result<Found, R>,
    pub path: [u8; limits::PATH_BYTES],
}

// The answer of a walk that ends here.
fn ended(w: Walk, found: Result<Found, Errno>) -> Walked
    ensures { result ≡ answer_of w found }
{
    let path = w.path;
    Walked {
        steps: w.steps,
        found,
        path,
    }
}

// Goes through the components that are left. Each makes the rest shorter or follows one of few symlinks, so there is an end.
fn run(tree: &Tree<'_>, who: Credentials, last: Final, w: Walk) -> Walked
    requires { Fit w × (w.links ≡ 0) × (w.steps ≡ 0) }
    ensures { Ended result (walk_from (seen tree.now.image) who last step_limit (position_of w)) }
{
    let mut w = w;
    loop {
        let r = component::step::step(tree, who, last, w);
        match r.leave {
            Leave::Goes => w = r.walk,
            Leave::Refuses(why) => return ended(r.walk, Err(why)),
            Leave::Finds(found) => return ended(r.walk, Ok(found)),
        }
    }
}

// A working path that holds this path, and then zeros.
fn working(path: &[u8]) -> [u8; limits::PATH_BYTES]
    requires { length path.now ≤ path_limit }
    ensures { result ≡ working_path path.now }
{
    let mut bytes = [0u8; limits::PATH_BYTES];
    layout::bytes::copy(&mut bytes, 0, path);
    bytes
}

// The state in which a walk begins.
fn begin(path: &[u8], directory: usize, waived: bool) -> Walk
    requires { length path.now ≤ path_limit }
    ensures { result ≡ beginning path.now directory waived }
{
    let bytes = working(path);
    Walk {
        path: bytes,
        len: path.len(),
        at: 0,
        directory,
        links: 0,
        steps: 0,
        waived,
    }
}

// A walk that does not begin, for this reason, however reasons are numbered.
pub fn stop<R>(why: R) -> Walked<R>
    ensures { (n : R → ℕ) → EndedBy n result (halt (n why)) }
{
    Walked {
        steps: 0,
        found: Err(why),
        path: [0u8; limits::PATH_BYTES],
    }
}

// The walk from a start, which a closed handle and a path of slashes only do not have.
fn from_start(
    tree: &Tree<'_>,
    who: Credentials,
    last: Final,
    start: Option<Start>,
    path: &[u8],
) -> Walked
    requires { length path.now ≤ path_limit }
    ensures { Ended result (begun (seen tree.now.image) who last (begins start) path.now) }
{
    match start {
        None => stop(Errno::EBADF),
        Some(Start { directory, waived }) => {
            if path::is_bare(path) {
                return stop(Errno::EBUSY);
            }
            let w = begin(path, directory, waived);
            run(tree, who, last, w)
        }
    }
}

// The walk of a path from the current directory and a start.
fn resolve(
    tree: &Tree<'_>,
    who: Credentials,
    last: Final,
    current: usize,
    start: usize,
    path: &[u8],
) -> Walked
    ensures { Ended result (walk (seen tree.now.image) who last current start path.now) }
{
    if path.len() == 0 {
        return stop(Errno::ENOENT);
    }
    if limits::PATH_LIMIT < path.len() {
        return stop(Errno::ENAMETOOLONG);
    }
    let from = crate::start::locate(&tree.image, current, start, path);
    from_start(tree, who, last, from, path)
}

// The same, with all that a caller may rely on: the bound of the count, and what is known of each end.
pub fn walk(
    tree: &Tree<'_>,
    who: Credentials,
    last: Final,
    current: usize,
    start: usize,
    path: &[u8],
) -> Walked
    requires { no_zero path.now ≡ true }
    ensures { Answered (seen tree.now.image) last result (walk (seen tree.now.image) who last current start path.now) }
{
    resolve(tree, who, last, current, start, path)
}
