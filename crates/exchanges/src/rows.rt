// The rows of an exchange, put into a plan.
ghost use Rattle.std.specs.Prelude.{◌≡◌, [], ◌∷◌, ◌+◌, ◌<◌, ◌≤◌, length};
ghost use Rattle.plan.specs.Form.{plan_rows, plan_bytes};
ghost use Rattle.plan.specs.Added.{Added};
ghost use Rattle.exchanges.specs.Exchange.{slot_row, slot_rows, parent_rows, inode_rows, exchange_results, exchange_rows, exchange_planned};
ghost use Rattle.exchanges.specs.InImage.{BothInImage};

use encode::journal::Operation;
use layout::image::Image;
use plan::rows::{Group, Rows};
use recounts::Move;
use results::rows::{put_clear, put_inode, put_moved, put_start};

// The entry that the moved inode takes over.
fn put_slot(rows: &mut Rows, image: &Image<'_>, m: Move)
    requires { (rows.old.count < plan_rows) × (m.new < image.now.shape.entries) }
    ensures { Added image.now.shape rows.old (slot_row image.now.shape image.now.bytes.now m ∷ []) rows.new }
{
    let mut bytes = [0u8; plan::BODY_BYTES];
    let r = &mut bytes[..image.shape.width];
    results::records::retarget(r, image, m.new, m.moved);
    rows.push(Group::Entry, image.shape.entry_place(m.new), r);
}

// The old parent, and the new one where it is another directory.
fn put_parents(rows: &mut Rows, image: &Image<'_>, m: Move)
    requires { (rows.old.count + 2 ≤ plan_rows) × BothInImage image.now.shape m }
    ensures { Added image.now.shape rows.old (parent_rows image.now.shape image.now.bytes.now m) rows.new }
{
    put_inode(rows, image, m.from, &crate::parent(image, m, m.from));
    if m.into == m.from {
        return;
    }
    put_inode(rows, image, m.into, &crate::parent(image, m, m.into));
}

// Both entries.
fn put_slots(rows: &mut Rows, image: &Image<'_>, m: Move)
    requires { (rows.old.count + 2 ≤ plan_rows) × BothInImage image.now.shape m }
    ensures { Added image.now.shape rows.old (slot_rows image.now.shape image.now.bytes.now m) rows.new }
{
    put_slot(rows, image, crate::back(m));
    put_slot(rows, image, m);
}

// The moved inode, the parents and the replaced inode.
fn put_inodes(rows: &mut Rows, image: &Image<'_>, m: Move)
    requires { (rows.old.count + 4 ≤ plan_rows) × BothInImage image.now.shape m }
    ensures { Added image.now.shape rows.old (inode_rows image.now.shape image.now.bytes.now m) rows.new }
{
    put_moved(rows, image, m);
    put_parents(rows, image, m);
    put_moved(rows, image, crate::back(m));
}

// Puts the rows of the exchange behind the journal record behind the plan's rows.
pub fn put(rows: &mut Rows, image: &Image<'_>, m: Move)
    requires { (rows.old.count + 6 ≤ plan_rows) × BothInImage image.now.shape m }
    ensures { Added image.now.shape rows.old (exchange_results image.now.shape image.now.bytes.now m) rows.new }
{
    put_slots(rows, image, m);
    put_inodes(rows, image, m);
}

// Fills the plan with all rows of the exchange, and answers how many they are.
pub fn fill(plan: &mut [u8], image: &Image<'_>, m: Move) -> usize
    requires { (plan_bytes ≤ length plan.old) × BothInImage image.now.shape m }
    ensures { (plan.new ≡ exchange_planned image.now.shape image.now.bytes.now m plan.old) × (result ≡ length (exchange_rows image.now.shape image.now.bytes.now m)) }
{
    let mut rows = Rows::none();
    put_start(&mut rows, u8::from(Operation::Exchange), image, m);
    put(&mut rows, image, m);
    put_clear(&mut rows, image);
    layout::bytes::copy(plan, 0, &rows.bytes);
    rows.count
}
