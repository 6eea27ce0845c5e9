// The rows of a rename that another operation or a recovery shares, put into a plan: all but the new entry.
ghost use Rattle.std.specs.Prelude.{◌≡◌, [], ◌∷◌, ◌+◌, ◌<◌, ◌≤◌};
ghost use Rattle.encode.specs.Journal.{journal_bytes};
ghost use Rattle.plan.specs.Form.{plan_rows};
ghost use Rattle.plan.specs.Write.{inode_key};
ghost use Rattle.plan.specs.Added.{Added};
ghost use Rattle.results.specs.Results.{result_row, moved_row, always_rows, into_rows, replaced_rows, text_rows, results, clear_row};
ghost use Rattle.results.specs.InImage.{InImage};
ghost use Rattle.results.specs.Start.{journal_for, start_row};

use crate::records;
use encode::journal::Journal;
use layout::image::Image;
use layout::limits;
use plan::rows::{Group, Rows};
use recounts::Move;

// The journal record of the move, of an operation of this kind.
fn journal(kind: u8, m: Move) -> [u8; 32]
    ensures { result ≡ journal_bytes (journal_for kind m) }
{
    let j = Journal {
        kind,
        old: m.old,
        new: m.new,
        moved: m.moved,
        replaced: m.replaced,
        parent: m.from,
        text: m.text,
        time: m.now,
    };
    let mut r = [0u8; 32];
    encode::journal::write(&mut r, j);
    r
}

// The row that sets it.
pub fn put_start(rows: &mut Rows, kind: u8, image: &Image<'_>, m: Move)
    requires { rows.old.count < plan_rows }
    ensures { Added image.now.shape rows.old (start_row kind m ∷ []) rows.new }
{
    let r = journal(kind, m);
    rows.push(Group::Journal, image.shape.journal_place(), &r);
}

// The row that gives inode i these bytes.
pub fn put_inode(rows: &mut Rows, image: &Image<'_>, i: usize, r: &[u8; 32])
    requires { (rows.old.count < plan_rows) × (i < image.now.shape.inodes) }
    ensures { Added image.now.shape rows.old (result_row (inode_key i) r.now ∷ []) rows.new }
{
    rows.push(Group::Results, image.shape.inode_place(i), r);
}

// The moved inode.
pub fn put_moved(rows: &mut Rows, image: &Image<'_>, m: Move)
    requires { (rows.old.count < plan_rows) × (m.moved < image.now.shape.inodes) }
    ensures { Added image.now.shape rows.old (moved_row image.now.shape image.now.bytes.now m ∷ []) rows.new }
{
    put_inode(rows, image, m.moved, &records::moved(image, m));
}

// The old entry cleared, the moved inode and the old parent.
fn put_always(rows: &mut Rows, image: &Image<'_>, m: Move)
    requires { (rows.old.count + 3 ≤ plan_rows) × InImage image.now.shape m }
    ensures { Added image.now.shape rows.old (always_rows image.now.shape image.now.bytes.now m) rows.new }
{
    rows.push_clearing(
        Group::Results,
        image.shape.entry_place(m.old),
        image.shape.width,
    );
    put_moved(rows, image, m);
    put_inode(rows, image, m.from, &records::holder(image, m, m.from));
}

// The new parent, where it is another directory than the old one.
#[tactic(auto, using(crate::proofs::ResultRows::into_none))]
fn put_into(rows: &mut Rows, image: &Image<'_>, m: Move)
    requires { (rows.old.count < plan_rows) × InImage image.now.shape m }
    ensures { Added image.now.shape rows.old (into_rows image.now.shape image.now.bytes.now m) rows.new }
{
    if m.into == m.from {
        return;
    }
    put_inode(rows, image, m.into, &records::holder(image, m, m.into));
}

// The replaced inode, where there is one.
#[tactic(auto, using(crate::proofs::ResultRows::replaced_none))]
fn put_replaced(rows: &mut Rows, image: &Image<'_>, m: Move)
    requires { (rows.old.count < plan_rows) × InImage image.now.shape m }
    ensures { Added image.now.shape rows.old (replaced_rows image.now.shape image.now.bytes.now m) rows.new }
{
    if m.replaced == limits::ABSENT {
        return;
    }
    put_inode(rows, image, m.replaced, &records::replaced(image, m));
}

// The text cleared, where one is freed.
fn put_text(rows: &mut Rows, image: &Image<'_>, m: Move)
    requires { (rows.old.count < plan_rows) × InImage image.now.shape m }
    ensures { Added image.now.shape rows.old (text_rows image.now.shape image.now.bytes.now m) rows.new }
{
    if m.text == limits::ABSENT {
        return;
    }
    rows.push_clearing(
        Group::Results,
        image.shape.text_place(m.text),
        limits::TEXT_BYTES,
    );
}

// Puts the results of the move behind the plan's rows.
pub fn put(rows: &mut Rows, image: &Image<'_>, m: Move)
    requires { (rows.old.count + 6 ≤ plan_rows) × InImage image.now.shape m }
    ensures { Added image.now.shape rows.old (results image.now.shape image.now.bytes.now m) rows.new }
{
    put_always(rows, image, m);
    put_into(rows, image, m);
    put_replaced(rows, image, m);
    put_text(rows, image, m);
}

// The row that clears the journal record, behind all others.
pub fn put_clear(rows: &mut Rows, image: &Image<'_>)
    requires { rows.old.count < plan_rows }
    ensures { Added image.now.shape rows.old (clear_row image.now.shape ∷ []) rows.new }
{
    rows.push_clearing(
        Group::Clear,
        image.shape.journal_place(),
        limits::JOURNAL_BYTES,
    );
}
