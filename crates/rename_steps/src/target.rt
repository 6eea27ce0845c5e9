// The target of a rename: whether it has entries, and steps 11 to 13 of the order of refusal.
ghost use Rattle.std.specs.Prelude.{◌≡◌, ◌<◌};
ghost use Rattle.layout.specs.Code.{code};
ghost use Rattle.layout.specs.Seen.{seen};
ghost use Rattle.rename_steps.specs.Tests.{entry_in, has_entries, open_on, is_opened, busy, full_parent, no_slot};
ghost use Rattle.refusals.specs.Within.{Within};
ghost use Rattle.refusals.specs.Rules.{number_of, decide};
ghost use Rattle.rename_steps.specs.Steps.{target_rules};

use layout::errno::Errno;
use layout::handle::State;
use layout::image::Image;
use layout::limits;
use refusals::case::Case;
use refusals::reparented;

// Whether the entry in slot j is in use and lies in directory d. Few entries do, so that is asked first.
#[tactic(auto, unfolding(layout::specs::View::view_of))]
fn entry_in(image: &Image<'_>, d: usize, j: usize) -> bool
    requires { j < image.now.shape.entries }
    ensures { result ≡ entry_in (seen image.now) d j }
{
    let e = image.entry(j);
    e.parent() == d && e.name_length() != 0
}

// Whether directory d has entries.
pub fn has_entries(image: &Image<'_>, d: usize) -> bool
    ensures { result ≡ has_entries (seen image.now) d }
{
    (0..image.shape.entries).any(|j| entry_in(image, d, j))
}

// Whether handle n is open on inode i.
#[tactic(auto, unfolding(layout::specs::View::view_of))]
fn open_on(image: &Image<'_>, i: usize, n: usize) -> bool
    requires { n < image.now.shape.handles }
    ensures { result ≡ open_on (seen image.now) i n }
{
    let r = image.handle(n);
    !matches!(r.state(), State::Closed) && r.inode() == i
}

// Whether inode i is under an open handle.
fn is_opened(image: &Image<'_>, i: usize) -> bool
    ensures { result ≡ is_opened (seen image.now) i }
{
    (0..image.shape.handles).any(|n| open_on(image, i, n))
}

// Step 11: the replaced inode would lose its last entry, and is the current directory or under an open handle.
fn busy(image: &Image<'_>, c: Case) -> bool
    ensures { result ≡ busy (seen image.now) c }
{
    let replaced = c.replaced;
    replaced != limits::ABSENT
        && tree::entries_of(image, replaced) == 1
        && (replaced == c.current || is_opened(image, replaced))
}

// Step 12: the new parent would get a link more than there may be.
#[tactic(auto, unfolding(layout::specs::View::view_of))]
fn full_parent(image: &Image<'_>, c: Case) -> bool
    requires { Within image.now.shape c }
    ensures { result ≡ full_parent (seen image.now) c }
{
    reparented::reparents(image, c, c.moved)
        && c.replaced == limits::ABSENT
        && image.inode(c.into).links() == limits::LINK_LIMIT
}

// Step 13: no entry is free.
#[tactic(auto, unfolding(layout::specs::View::view_of))]
fn no_slot(image: &Image<'_>, c: Case) -> bool
    ensures { result ≡ no_slot (seen image.now) c }
{
    c.replaced == limits::ABSENT && image.shape.entries <= c.new
}

// Refuses by the first of steps 11 to 13 that does.
pub fn allow(image: &Image<'_>, c: Case) -> Result<(), Errno>
    requires { Within image.now.shape c }
    ensures { code result ≡ number_of (decide (target_rules (seen image.now) c)) }
{
    if busy(image, c) {
        return Err(Errno::EBUSY);
    }
    if full_parent(image, c) {
        return Err(Errno::EMLINK);
    }
    if no_slot(image, c) {
        return Err(Errno::ENOSPC);
    }
    Ok(())
}
