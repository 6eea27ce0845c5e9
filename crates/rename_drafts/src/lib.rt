// A pending rename: whether its journal record fits, and the rows that finish it or take it back.
#![tactic(auto)]

ghost use Rattle.std.specs.Prelude.{◌≡◌, ◌<◌};
ghost use Rattle.layout.specs.Seen.{seen};
ghost use Rattle.plan.specs.Added.{no_rows, Added};
ghost use Rattle.results.specs.InImage.{InImage};
ghost use Rattle.rename_drafts.specs.PendingRename.{below_or_absent, numbers_in_range, different, rename_fits, move_from, entry_stands, into_good, undoing, finishing, rename_draft};
ghost use Rattle.rename_drafts.specs.Drafted.{Drafted};

use encode::journal::Journal;
use layout::image::Image;
use layout::{Shape, limits};
use plan::rows::Rows;
use recounts::Move;

fn below_or_absent(i: usize, n: usize) -> bool
    ensures { result ≡ below_or_absent i n }
{
    i == limits::ABSENT || i < n
}

fn in_range(h: Shape, j: Journal) -> bool
    ensures { result ≡ numbers_in_range h j }
{
    j.old < h.entries
        && j.new < h.entries
        && j.moved < h.inodes
        && below_or_absent(j.replaced, h.inodes)
        && below_or_absent(j.text, h.texts)
}

// Slots that differ, a moved inode that is not the root, and it, the old parent and the replaced inode different.
pub fn different(j: Journal) -> bool
    ensures { result ≡ different j }
{
    j.old != j.new
        && j.moved != 0
        && j.moved != j.parent
        && j.replaced != j.moved
        && j.replaced != j.parent
}

// Whether the record fits the image.
#[tactic(auto, unfolding(crate::specs::PendingRename::rename_fits))]
fn fits(image: &Image<'_>, j: Journal) -> bool
    ensures { result ≡ rename_fits image.now.shape image.now.bytes.now j }
{
    in_range(image.shape, j) && different(j) && image.is_directory(j.parent)
}

// The move that the record names. The new parent is not in the record: the entry in the new slot has it.
pub fn move_from(image: &Image<'_>, j: Journal) -> Move
    requires { j.new < image.now.shape.entries }
    ensures { result ≡ move_from (seen image.now) j }
{
    let e = image.entry(j.new);
    Move {
        old: j.old,
        new: j.new,
        moved: j.moved,
        from: j.parent,
        into: e.parent(),
        replaced: j.replaced,
        text: j.text,
        now: j.time,
    }
}

// Whether the new entry has been applied.
#[tactic(auto, unfolding(crate::specs::PendingRename::entry_stands, layout::specs::View::view_of))]
fn entry_stands(image: &Image<'_>, m: Move) -> bool
    requires { m.new < image.now.shape.entries }
    ensures { result ≡ entry_stands (seen image.now) m }
{
    let e = image.entry(m.new);
    e.name_length() != 0 && e.target() == m.moved
}

// Whether the new parent is a directory, and neither moved nor replaced.
#[tactic(auto, unfolding(crate::specs::PendingRename::into_good))]
pub fn into_good(image: &Image<'_>, m: Move) -> bool
    ensures { result ≡ into_good (seen image.now) m }
{
    image.is_directory(m.into) && m.into != m.moved && m.into != m.replaced
}

// The rows that finish the move.
fn finish(image: &Image<'_>, m: Move) -> Rows
    requires { InImage image.now.shape m }
    ensures { Added image.now.shape no_rows (finishing image.now.shape image.now.bytes.now m) result }
{
    let mut rows = Rows::none();
    results::rows::put(&mut rows, image, m);
    results::rows::put_clear(&mut rows, image);
    rows
}

// The row that takes it back.
fn undo(image: &Image<'_>) -> Rows
    ensures { Added image.now.shape no_rows (undoing image.now.shape image.now.bytes.now) result }
{
    let mut rows = Rows::none();
    results::rows::put_clear(&mut rows, image);
    rows
}

// The rows of a pending rename, where its record fits.
pub fn draft(image: &Image<'_>, j: Journal) -> Option<Rows>
    ensures { Drafted image.now.shape (rename_draft image.now.shape image.now.bytes.now j) result }
{
    if !fits(image, j) {
        return None;
    }
    let m = move_from(image, j);
    if !entry_stands(image, m) {
        return Some(undo(image));
    }
    if !into_good(image, m) {
        return None;
    }
    Some(finish(image, m))
}
