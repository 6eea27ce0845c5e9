// The state of a walk, what a path names, and the ways in which one component leaves the walk.
ghost use Rattle.std.specs.Prelude.{◌≡◌, false, ℕ, ◌+◌, ◌≤◌, ◌<◌};
ghost use Rattle.paths.specs.Path.{bare};
ghost use Rattle.component.specs.Step.{existing, missing, refused_by, names, go_to};
ghost use Rattle.layout.specs.Limits.{step_limit};
ghost use Rattle.component.specs.State.{position_of, name_in, rest_from, step_by, Left, ReadUpTo, Turned};

use layout::errno::Errno;
use layout::limits;

// Where a walk stands: the working path, of which the bytes from at up to len are unread; the directory that they are read from; the
// symlinks followed; the component checks begun; whether search permission is waived for the next component.
#[derive(Clone, Copy)]
pub struct Walk {
    pub path: [u8; limits::PATH_BYTES],
    pub len: usize,
    pub at: usize,
    pub directory: usize,
    pub links: usize,
    pub steps: usize,
    pub waived: bool,
}

// What the last name of a path must be: whether a missing one is refused, and whether one that is not portable is.
#[derive(Clone, Copy)]
pub struct Final {
    pub present: bool,
    pub portable: bool,
}

// What a path names in a directory, and whether the path ends in a slash.
#[derive(Clone, Copy)]
pub struct Found {
    pub directory: usize,
    pub name: Name,
    pub slash: bool,
}

// The last name of a path: an entry that has it, or a range of the working path where its directory lacks it.
#[derive(Clone, Copy)]
pub enum Name {
    Existing { slot: usize, inode: usize },
    Missing { from: usize, to: usize },
}

// How one component leaves the walk: with more to read, refused for a reason, or with what the path names.
#[derive(Clone, Copy)]
pub enum Leave<R = Errno> {
    Goes,
    Refuses(R),
    Finds(Found),
}

// The walk behind one component, and how that left it.
#[derive(Clone, Copy)]
pub struct Turn<R = Errno> {
    pub walk: Walk,
    pub leave: Leave<R>,
}

// The component in hand is refused for this reason, however reasons are numbered.
pub fn refuse<R>(w: Walk, why: R) -> Turn<R>
    requires { w.steps < step_limit }
    ensures { ((n : R → ℕ) → step_by n result ≡ refused_by (n why) (position_of w)) × Left result.walk result.leave }
{
    let mut next = w;
    next.steps = w.steps + 1;
    Turn {
        walk: next,
        leave: Leave::Refuses(why),
    }
}

// The final name exists.
pub fn exists(w: Walk, slot: usize, inode: usize, slash: bool) -> Turn
    requires { w.steps < step_limit }
    ensures { Turned result (names (position_of w) (existing w.directory slot inode slash)) }
{
    let found = Found {
        directory: w.directory,
        name: Name::Existing { slot, inode },
        slash,
    };
    let mut next = w;
    next.steps = w.steps + 1;
    Turn {
        walk: next,
        leave: Leave::Finds(found),
    }
}

// The final name, from index a up to e, is missing.
pub fn lacks(w: Walk, a: usize, e: usize, slash: bool) -> Turn
    requires { ReadUpTo w e × (a ≤ e) }
    ensures { Turned result (names (position_of w) (missing w.directory (name_in w a e) slash)) }
{
    let found = Found {
        directory: w.directory,
        name: Name::Missing { from: a, to: e },
        slash,
    };
    let mut next = w;
    next.steps = w.steps + 1;
    Turn {
        walk: next,
        leave: Leave::Finds(found),
    }
}

// The walk goes on behind index e, in this directory.
pub fn advance(w: Walk, e: usize, directory: usize) -> Turn
    requires { ReadUpTo w e × (bare (rest_from w e) ≡ false) }
    ensures { Turned result (go_to (position_of w) (rest_from w e) directory) }
{
    let mut next = w;
    next.at = e;
    next.directory = directory;
    next.steps = w.steps + 1;
    next.waived = false;
    Turn {
        walk: next,
        leave: Leave::Goes,
    }
}
