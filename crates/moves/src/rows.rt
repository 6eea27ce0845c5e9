// The rows of a rename, put into its plan.
ghost use Rattle.std.specs.Prelude.{◌≡◌, [], ◌∷◌, ◌+◌, ◌<◌, ◌≤◌, length};
ghost use Rattle.plan.specs.Form.{plan_rows, plan_bytes};
ghost use Rattle.plan.specs.Added.{Added};
ghost use Rattle.results.specs.InImage.{InImage};
ghost use Rattle.moves.specs.Plan.{new_entry, entry_row, planned, rename_rows};

use encode::journal::Operation;
use layout::image::Image;
use layout::limits;
use plan::rows::{Group, Rows};
use recounts::Move;
use results::rows::{put_clear, put_start};

// Makes the whole record the new entry: the replaced one's with another target, or one under the name that was missing.
fn make_entry(r: &mut [u8], image: &Image<'_>, m: Move, called: &[u8])
    requires { (m.new < image.now.shape.entries) × (length r.old ≡ image.now.shape.width) × (8 + length called.now ≤ image.now.shape.width) }
    ensures { r.new ≡ new_entry image.now.shape image.now.bytes.now m called.now }
{
    if m.replaced == limits::ABSENT {
        encode::entry::write(r, m.into, m.moved, called);
        return;
    }
    results::records::retarget(r, image, m.new, m.moved);
}

// The new entry's row.
fn put_entry(rows: &mut Rows, image: &Image<'_>, m: Move, called: &[u8])
    requires { (rows.old.count < plan_rows) × (m.new < image.now.shape.entries) × (8 + length called.now ≤ image.now.shape.width) }
    ensures { Added image.now.shape rows.old (entry_row image.now.shape image.now.bytes.now m called.now ∷ []) rows.new }
{
    let mut bytes = [0u8; plan::BODY_BYTES];
    let r = &mut bytes[..image.shape.width];
    make_entry(r, image, m, called);
    rows.push(Group::Entry, image.shape.entry_place(m.new), r);
}

// Fills the plan with the rows of the move, and answers how many they are.
pub fn put(plan: &mut [u8], image: &Image<'_>, m: Move, called: &[u8]) -> usize
    requires { (plan_bytes ≤ length plan.old) × InImage image.now.shape m × (8 + length called.now ≤ image.now.shape.width) }
    ensures { (plan.new ≡ planned image.now.shape image.now.bytes.now m called.now plan.old) × (result ≡ length (rename_rows image.now.shape image.now.bytes.now m called.now)) }
{
    let mut rows = Rows::none();
    put_start(&mut rows, u8::from(Operation::Rename), image, m);
    put_entry(&mut rows, image, m, called);
    results::rows::put(&mut rows, image, m);
    put_clear(&mut rows, image);
    layout::bytes::copy(plan, 0, &rows.bytes);
    rows.count
}
