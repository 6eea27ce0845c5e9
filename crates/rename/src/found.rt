// What both walks have found, as the case that a rename is judged by.
ghost use Rattle.std.specs.Prelude.{◌≡◌, not, List, ℕ, ◌≤◌, ◌<◌};
ghost use Rattle.layout.specs.Seen.{seen};
ghost use Rattle.layout.specs.View.{entry_used};
ghost use Rattle.walk.specs.Answer.{found_in, end_of};
ghost use Rattle.rename.specs.Order.{free_slot, directory_of, slot_of, inode_of, slash_of, case_of};

use component::state::{Found, Name};
use layout::errno::Errno;
use layout::image::Image;
use layout::limits;
use paths::request::Request;
use refusals::case::Case;
use walk::resolve::Walked;

// Whether the entry in slot j is free.
#[tactic(auto, unfolding(layout::specs::View::view_of))]
fn is_free(image: &Image<'_>, j: usize) -> bool
    requires { j < image.now.shape.entries }
    ensures { result ≡ not (entry_used (seen image.now) j) }
{
    image.entry(j).name_length() == 0
}

// The lowest free slot, or the number of slots where none is free.
pub fn free_slot(image: &Image<'_>) -> usize
    ensures { (result ≡ free_slot (seen image.now)) × (result ≤ image.now.shape.entries) }
{
    let n = image.shape.entries;
    (0..n).position(|j| is_free(image, j)).unwrap_or(n)
}

// The slot of what a walk has found: that of its entry, or the lowest free one; 0 where the walk is refused.
fn slot_of(image: &Image<'_>, found: Result<Found, Errno>) -> usize
    ensures { (path : List ℕ) → result ≡ slot_of (seen image.now) (found_in path found) }
{
    match found {
        Ok(f) => match f.name {
            Name::Existing { slot, inode: _ } => slot,
            Name::Missing { from: _, to: _ } => free_slot(image),
        },
        Err(_) => 0,
    }
}

// Its inode, or limits::ABSENT.
fn inode_of(found: Result<Found, Errno>) -> usize
    ensures { (path : List ℕ) → result ≡ inode_of (found_in path found) }
{
    match found {
        Ok(f) => match f.name {
            Name::Existing { slot: _, inode } => inode,
            Name::Missing { from: _, to: _ } => limits::ABSENT,
        },
        Err(_) => limits::ABSENT,
    }
}

fn directory_of(found: Result<Found, Errno>) -> usize
    ensures { (path : List ℕ) → result ≡ directory_of (found_in path found) }
{
    match found {
        Ok(f) => f.directory,
        Err(_) => 0,
    }
}

fn slash_of(found: Result<Found, Errno>) -> bool
    ensures { (path : List ℕ) → result ≡ slash_of (found_in path found) }
{
    match found {
        Ok(f) => f.slash,
        Err(_) => false,
    }
}

// The case of a request whose walks ended so.
pub fn case_of(image: &Image<'_>, q: Request, old: &Walked, new: &Walked) -> Case
    ensures { result ≡ case_of (seen image.now) q (record { old = end_of old.now; new = end_of new.now }) }
{
    let who = q.who;
    Case {
        old: slot_of(image, old.found),
        new: slot_of(image, new.found),
        moved: inode_of(old.found),
        replaced: inode_of(new.found),
        from: directory_of(old.found),
        into: directory_of(new.found),
        slash: slash_of(new.found),
        who,
        current: usize::from(q.current),
    }
}
