// Steps 2 to 7 of the order of refusal: what is asked of the two parents.
ghost use Rattle.std.specs.Prelude.{◌≡◌, not, ◌<◌};
ghost use Rattle.layout.specs.Code.{code};
ghost use Rattle.layout.specs.Seen.{seen};
ghost use Rattle.refusals.specs.Case.{read_only_parent, other_system, mounted_in, mounted, may_write, parent_denied, sticky, owns, sticky_denied, replaced_stuck, inside_itself};
ghost use Rattle.refusals.specs.Within.{Within};
ghost use Rattle.refusals.specs.Rules.{number_of, decide, parent_rules};

use crate::case::Case;
use layout::errno::Errno;
use layout::image::Image;
use layout::limits;
use paths::permission;
use paths::request::Credentials;

// The file system of inode i.
#[tactic(auto, unfolding(layout::specs::View::view_of))]
fn system(image: &Image<'_>, i: usize) -> u8
    requires { i < image.now.shape.inodes }
    ensures { result ≡ (seen image.now).system i }
{
    image.inode(i).system()
}

// Step 2: a parent is on a read-only file system.
fn read_only(image: &Image<'_>, c: Case) -> bool
    requires { Within image.now.shape c }
    ensures { result ≡ read_only_parent (seen image.now) c }
{
    limits::FIRST_READ_ONLY <= system(image, c.from)
        || limits::FIRST_READ_ONLY <= system(image, c.into)
}

// Step 3: the parents are on different file systems.
fn other_system(image: &Image<'_>, c: Case) -> bool
    requires { Within image.now.shape c }
    ensures { result ≡ other_system (seen image.now) c }
{
    system(image, c.from) != system(image, c.into)
}

// Whether i is a directory on another file system than directory d, which holds it.
#[tactic(auto, using(layout::proofs::ViewLaws::is_kind_below))]
fn mounted_in(image: &Image<'_>, d: usize, i: usize) -> bool
    requires { d < image.now.shape.inodes }
    ensures { result ≡ mounted_in (seen image.now) d i }
{
    image.is_directory(i) && system(image, i) != system(image, d)
}

// Step 4: the moved or the replaced inode is such a directory. One that is absent is no directory.
fn mounted(image: &Image<'_>, c: Case) -> bool
    requires { Within image.now.shape c }
    ensures { result ≡ mounted (seen image.now) c }
{
    mounted_in(image, c.from, c.moved) || mounted_in(image, c.into, c.replaced)
}

// Whether write permission is denied on directory d.
pub fn no_write(image: &Image<'_>, who: Credentials, d: usize) -> bool
    requires { d < image.now.shape.inodes }
    ensures { result ≡ not (may_write (seen image.now) who d) }
{
    !permission::allows(image, who, d, permission::WRITE_BIT)
}

// Step 5: write permission is denied on a parent.
fn denied(image: &Image<'_>, c: Case) -> bool
    requires { Within image.now.shape c }
    ensures { result ≡ parent_denied (seen image.now) c }
{
    no_write(image, c.who, c.from) || no_write(image, c.who, c.into)
}

// Whether directory d has the sticky bit.
#[tactic(auto, unfolding(layout::specs::View::view_of))]
fn is_sticky(image: &Image<'_>, d: usize) -> bool
    requires { d < image.now.shape.inodes }
    ensures { result ≡ sticky (seen image.now) d }
{
    image.inode(d).mode() / limits::STICKY_BIT % 2 == 1
}

// Whether the caller owns inode i.
#[tactic(auto, unfolding(layout::specs::View::view_of))]
fn owns(image: &Image<'_>, who: Credentials, i: usize) -> bool
    requires { i < image.now.shape.inodes }
    ensures { result ≡ owns (seen image.now) who i }
{
    who.user == image.inode(i).owner()
}

// Step 6: whether the sticky bit of directory d keeps the caller from inode i in it.
#[tactic(auto, unfolding(crate::specs::Case::sticky_denied))]
fn sticky_denied(image: &Image<'_>, who: Credentials, d: usize, i: usize) -> bool
    requires { (d < image.now.shape.inodes) × (i < image.now.shape.inodes) }
    ensures { result ≡ sticky_denied (seen image.now) who d i }
{
    is_sticky(image, d) && !(who.user == 0 || owns(image, who, i) || owns(image, who, d))
}

// Step 6 on the new side: whether the sticky bit of the new parent keeps the caller from what is replaced.
fn replaced_stuck(image: &Image<'_>, c: Case) -> bool
    requires { Within image.now.shape c }
    ensures { result ≡ replaced_stuck (seen image.now) c }
{
    c.replaced != limits::ABSENT && sticky_denied(image, c.who, c.into, c.replaced)
}

// Step 7: the moved inode is the new parent, or above it.
#[tactic(auto, unfolding(layout::specs::View::view_of))]
fn inside_itself(image: &Image<'_>, c: Case) -> bool
    requires { Within image.now.shape c }
    ensures { result ≡ inside_itself (seen image.now) c }
{
    tree::is_above(image, c.moved, c.into)
}

// Refuses by the first of steps 2 to 7 that does.
pub fn allow(image: &Image<'_>, c: Case) -> Result<(), Errno>
    requires { Within image.now.shape c }
    ensures { code result ≡ number_of (decide (parent_rules (seen image.now) c)) }
{
    if read_only(image, c) {
        return Err(Errno::EROFS);
    }
    if other_system(image, c) {
        return Err(Errno::EXDEV);
    }
    if mounted(image, c) {
        return Err(Errno::EBUSY);
    }
    if denied(image, c) {
        return Err(Errno::EACCES);
    }
    if sticky_denied(image, c.who, c.from, c.moved) {
        return Err(Errno::EPERM);
    }
    if replaced_stuck(image, c) {
        return Err(Errno::EPERM);
    }
    if inside_itself(image, c) {
        return Err(Errno::EINVAL);
    }
    Ok(())
}
