// One component of a path: what is asked of it, and where it leads.
ghost use Rattle.std.specs.Prelude.{◌≡◌, false, true, ◌||◌, ◌+◌, ◌-◌, ◌≤◌, ◌<◌, length};
ghost use Rattle.layout.specs.Seen.{seen};
ghost use Rattle.layout.specs.View.{entry_used};
ghost use Rattle.paths.specs.Permission.{allows, search_bit};
ghost use Rattle.paths.specs.Path.{bare};
ghost use Rattle.component.specs.Step.{splice, walk_step};
ghost use Rattle.layout.specs.Limits.{symlink_limit, path_limit, step_limit};
ghost use Rattle.component.specs.Decisions.{follow, enter, arrive, hit, lack, miss, seek, barred, named, dots, read, inside};
ghost use Rattle.component.specs.State.{position_of, name_in, rest_from, ReadUpTo, Fit, Turned};

use crate::state;
use crate::state::{Final, Leave, Turn, Walk};
use layout::errno::Errno;
use layout::kind::Kind;
use layout::limits;
use layout::tree::Tree;
use paths::request::Credentials;
use paths::{path, permission, portable};

// The working path becomes a symlink's text and the unread rest from index e on.
fn join(w: Walk, text: &[u8], e: usize, len: usize) -> Turn
    requires { ReadUpTo w e × (bare (rest_from w e) ≡ false) × (len ≡ length text.now + (w.len - e)) × (len ≤ path_limit) × (w.links < symlink_limit) }
    ensures { Turned result (splice (position_of w) text.now (rest_from w e)) }
{
    let old = w.path;
    let end = w.len;
    let path = path::splice(text, &old[e..end]);
    let directory = path::start(text, w.directory);
    let next = Walk {
        path,
        len,
        at: 0,
        directory,
        links: w.links + 1,
        steps: w.steps + 1,
        waived: false,
    };
    Turn {
        walk: next,
        leave: Leave::Goes,
    }
}

// A symlink ahead of other components is followed, unless it is one too many or the joined path is too long.
#[tactic(auto, using(crate::proofs::Turns::follows_many))]
fn follow(w: Walk, text: &[u8], e: usize) -> Turn
    requires { ReadUpTo w e × (bare (rest_from w e) ≡ false) × (length text.now ≤ path_limit) }
    ensures { Turned result (follow (position_of w) text.now (rest_from w e)) }
{
    if limits::SYMLINK_LIMIT <= w.links {
        return state::refuse(w, Errno::ELOOP);
    }
    let len = text.len() + (w.len - e);
    if limits::PATH_LIMIT < len {
        return state::refuse(w, Errno::ENAMETOOLONG);
    }
    join(w, text, e, len)
}

// A name ahead of others: the type number of what it names decides how the walk goes on.
#[tactic(auto, unfolding(seq::specs::Bytes::part, layout::specs::View::view_of))]
fn enter(tree: &Tree<'_>, w: Walk, e: usize, target: usize) -> Turn
    requires { ReadUpTo w e × (bare (rest_from w e) ≡ false) × (target < tree.now.image.shape.inodes) }
    ensures { Turned result (enter (seen tree.now.image) (position_of w) (rest_from w e) target) }
{
    let inode = tree.image.inode(target);
    match inode.kind() {
        Kind::Symlink => {
            let text = tree.image.text(inode.field());
            follow(w, text.path(), e)
        }
        _ => state::advance(w, e, target),
    }
}

// The final name exists: a slash behind it asks for a directory.
#[tactic(auto, unfolding(seq::specs::Bytes::part, layout::specs::View::view_of))]
fn arrive(tree: &Tree<'_>, w: Walk, e: usize, slot: usize, target: usize) -> Turn
    requires { ReadUpTo w e × (target ≡ (seen tree.now.image).target slot) × (target < tree.now.image.shape.inodes) }
    ensures { Turned result (arrive (seen tree.now.image) (position_of w) (rest_from w e) slot) }
{
    if e == w.len {
        return state::exists(w, slot, target, false);
    }
    let inode = tree.image.inode(target);
    match inode.kind() {
        Kind::Directory => state::exists(w, slot, target, true),
        _ => state::refuse(w, Errno::ENOTDIR),
    }
}

// The name that ends at index e is in slot.
#[tactic(auto, unfolding(seq::specs::Bytes::part, layout::specs::View::view_of))]
fn hit(tree: &Tree<'_>, w: Walk, e: usize, slot: usize) -> Turn
    requires { ReadUpTo w e × (slot < tree.now.image.shape.entries) × (entry_used (seen tree.now.image) slot ≡ true) }
    ensures { Turned result (hit (seen tree.now.image) (position_of w) (rest_from w e) slot) }
{
    let entry = tree.image.entry(slot);
    let target = entry.target();
    let path = w.path;
    let len = w.len;
    if path::is_bare(&path[e..len]) {
        return arrive(tree, w, e, slot, target);
    }
    enter(tree, w, e, target)
}

// The final name, from index a up to e, is not there: whether that is a refusal depends on the path.
#[tactic(auto, unfolding(seq::specs::Bytes::part, layout::specs::View::view_of))]
fn lack(last: Final, w: Walk, a: usize, e: usize) -> Turn
    requires { ReadUpTo w e × (a ≤ e) }
    ensures { Turned result (lack last (position_of w) (name_in w a e) (rest_from w e)) }
{
    if last.present {
        return state::refuse(w, Errno::ENOENT);
    }
    state::lacks(w, a, e, e < w.len)
}

// The name from index a up to e is not there.
#[tactic(auto, unfolding(seq::specs::Bytes::part, layout::specs::View::view_of))]
fn miss(last: Final, w: Walk, a: usize, e: usize) -> Turn
    requires { ReadUpTo w e × (a ≤ e) }
    ensures { Turned result (miss last (position_of w) (name_in w a e) (rest_from w e)) }
{
    let path = w.path;
    let len = w.len;
    if path::is_bare(&path[e..len]) {
        return lack(last, w, a, e);
    }
    state::refuse(w, Errno::ENOENT)
}

// The name from index a up to e is looked up.
#[tactic(auto, unfolding(seq::specs::Bytes::part, layout::specs::View::view_of))]
fn seek(tree: &Tree<'_>, last: Final, w: Walk, a: usize, e: usize) -> Turn
    requires { ReadUpTo w e × (a ≤ e) }
    ensures { Turned result (seek (seen tree.now.image) last (position_of w) (name_in w a e) (rest_from w e)) }
{
    let path = w.path;
    let slot = paths::find::find(tree, w.directory, &path[a..e]);
    if slot < tree.image.shape.entries {
        return hit(tree, w, e, slot);
    }
    miss(last, w, a, e)
}

// Whether the name from index a up to e is final, has to be portable, and is not.
#[tactic(auto, unfolding(seq::specs::Bytes::part))]
fn is_barred(last: Final, w: Walk, a: usize, e: usize) -> bool
    requires { ReadUpTo w e × (a ≤ e) }
    ensures { result ≡ barred last (name_in w a e) (rest_from w e) }
{
    last.portable && path::is_bare(&w.path[e..w.len]) && !portable::is_portable(&w.path[a..e])
}

// The component from index a up to e is a name.
#[tactic(auto, unfolding(seq::specs::Bytes::part, layout::specs::View::view_of))]
fn name(tree: &Tree<'_>, last: Final, w: Walk, a: usize, e: usize) -> Turn
    requires { ReadUpTo w e × (a ≤ e) }
    ensures { Turned result (named (seen tree.now.image) last (position_of w) (name_in w a e) (rest_from w e)) }
{
    if is_barred(last, w, a, e) {
        return state::refuse(w, Errno::EPERM);
    }
    seek(tree, last, w, a, e)
}

// The component from index a up to e is a dot or two.
#[tactic(auto, unfolding(seq::specs::Bytes::part, layout::specs::View::view_of))]
fn dots(tree: &Tree<'_>, w: Walk, a: usize, e: usize) -> Turn
    requires { ReadUpTo w e × (a ≤ e) × (w.directory < tree.now.image.shape.inodes) }
    ensures { Turned result (dots (seen tree.now.image) (position_of w) (name_in w a e) (rest_from w e)) }
{
    if path::is_bare(&w.path[e..w.len]) {
        return state::refuse(w, Errno::EINVAL);
    }
    let directory = if path::is_dot(&w.path[a..e]) {
        w.directory
    } else {
        tree.image.inode(w.directory).field()
    };
    state::advance(w, e, directory)
}

// The component from index a up to e.
#[tactic(auto, using(seq::proofs::BytesLaws::part_length), unfolding(seq::specs::Bytes::part, layout::specs::View::view_of))]
fn component(tree: &Tree<'_>, last: Final, w: Walk, a: usize, e: usize) -> Turn
    requires { ReadUpTo w e × (a ≤ e) × (w.directory < tree.now.image.shape.inodes) }
    ensures { Turned result (read (seen tree.now.image) last (position_of w) (name_in w a e) (rest_from w e)) }
{
    if tree.image.shape.width - limits::NAME_OFFSET < e - a {
        return state::refuse(w, Errno::ENAMETOOLONG);
    }
    if path::is_dot(&w.path[a..e]) || path::is_dot_dot(&w.path[a..e]) {
        return dots(tree, w, a, e);
    }
    name(tree, last, w, a, e)
}

// Whether the directory may be searched.
fn may_search(tree: &Tree<'_>, who: Credentials, w: Walk) -> bool
    requires { w.directory < tree.now.image.shape.inodes }
    ensures { result ≡ (w.waived || allows (seen tree.now.image) who w.directory search_bit) }
{
    w.waived || permission::allows(&tree.image, who, w.directory, permission::SEARCH_BIT)
}

// The next component, in a directory.
#[tactic(auto, unfolding(seq::specs::Bytes::part, layout::specs::View::view_of))]
fn inside(tree: &Tree<'_>, who: Credentials, last: Final, w: Walk) -> Turn
    requires { Fit w × (w.steps < step_limit) × (w.directory < tree.now.image.shape.inodes) }
    ensures { Turned result (inside (seen tree.now.image) who last (position_of w)) }
{
    if !may_search(tree, who, w) {
        return state::refuse(w, Errno::EACCES);
    }
    let path = w.path;
    let len = w.len;
    let at = w.at;
    let a = at + path::slashes(&path[at..len]);
    let e = a + path::name_bytes(&path[a..len]);
    component(tree, last, w, a, e)
}

// The next component: it is read in a directory, or refused by any other type number.
pub fn step(tree: &Tree<'_>, who: Credentials, last: Final, w: Walk) -> Turn
    requires { Fit w × (w.steps < step_limit) }
    ensures { Turned result (walk_step (seen tree.now.image) who last (position_of w)) }
{
    match tree.image.kind(w.directory) {
        Kind::Directory => inside(tree, who, last, w),
        _ => state::refuse(w, Errno::ENOTDIR),
    }
}
