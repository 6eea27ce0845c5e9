// A pending exchange: whether its journal record fits, and the rows that finish it. Either slot may target either inode, since the two
// rows that exchange the targets may each have been applied or not; what is written comes from the record and from the slots' parents.
#![tactic(auto)]

ghost use Rattle.std.specs.Prelude.{◌≡◌, ◌<◌};
ghost use Rattle.layout.specs.Seen.{seen};
ghost use Rattle.plan.specs.Added.{no_rows, Added};
ghost use Rattle.exchanges.specs.InImage.{BothInImage};
ghost use Rattle.exchange_drafts.specs.PendingExchange.{both_in_range, both_different, slot_stands, slots_stand, exchange_fits, finishing_exchange, exchange_draft};
ghost use Rattle.rename_drafts.specs.Drafted.{Drafted};

use encode::journal::Journal;
use layout::image::Image;
use layout::{Shape, limits};
use plan::rows::Rows;
use recounts::Move;

fn in_range(h: Shape, j: Journal) -> bool
    ensures { result ≡ both_in_range h j }
{
    j.old < h.entries
        && j.new < h.entries
        && j.moved < h.inodes
        && j.replaced < h.inodes
        && j.text == limits::ABSENT
}

fn different(j: Journal) -> bool
    ensures { result ≡ both_different j }
{
    rename_drafts::different(j) && j.replaced != 0
}

// Whether a slot is in use, and targets either inode.
#[tactic(auto, unfolding(crate::specs::PendingExchange::slot_stands, layout::specs::View::view_of))]
fn slot_stands(image: &Image<'_>, j: Journal, slot: usize) -> bool
    requires { slot < image.now.shape.entries }
    ensures { result ≡ slot_stands (seen image.now) j slot }
{
    let e = image.entry(slot);
    e.name_length() != 0 && (e.target() == j.moved || e.target() == j.replaced)
}

// Whether both do, and lie in the old parent and in a directory that is neither inode.
#[tactic(auto, unfolding(crate::specs::PendingExchange::slots_stand, layout::specs::View::view_of))]
fn slots_stand(image: &Image<'_>, j: Journal) -> bool
    requires { (j.old < image.now.shape.entries) × (j.new < image.now.shape.entries) }
    ensures { result ≡ slots_stand (seen image.now) j }
{
    slot_stands(image, j, j.old)
        && slot_stands(image, j, j.new)
        && image.entry(j.old).parent() == j.parent
        && rename_drafts::into_good(image, rename_drafts::move_from(image, j))
}

// Whether the record fits the image.
#[tactic(auto, unfolding(crate::specs::PendingExchange::exchange_fits))]
fn fits(image: &Image<'_>, j: Journal) -> bool
    ensures { result ≡ exchange_fits image.now.shape image.now.bytes.now j }
{
    in_range(image.shape, j)
        && different(j)
        && image.is_directory(j.parent)
        && slots_stand(image, j)
}

// The rows that finish the exchange.
fn finish(image: &Image<'_>, m: Move) -> Rows
    requires { BothInImage image.now.shape m }
    ensures { Added image.now.shape no_rows (finishing_exchange image.now.shape image.now.bytes.now m) result }
{
    let mut rows = Rows::none();
    exchanges::rows::put(&mut rows, image, m);
    results::rows::put_clear(&mut rows, image);
    rows
}

// The rows of a pending exchange, where its record fits.
pub fn draft(image: &Image<'_>, j: Journal) -> Option<Rows>
    ensures { Drafted image.now.shape (exchange_draft image.now.shape image.now.bytes.now j) result }
{
    if !fits(image, j) {
        return None;
    }
    let m = rename_drafts::move_from(image, j);
    Some(finish(image, m))
}
