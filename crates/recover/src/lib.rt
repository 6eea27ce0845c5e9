// The job that recovers an image after a crash (the papers' repair): a plan that finishes or takes back what was interrupted.
#![tactic(auto)]

ghost use Rattle.std.specs.Prelude.{◌≡◌, ◌≤◌, length};
ghost use Rattle.layout.specs.Facts.{Read};
ghost use Rattle.plan.specs.Form.{plan_bytes};
ghost use Rattle.recover.specs.Recover.{pending_rows};
ghost use Rattle.recover.specs.Job.{by_rows, by_journal, recovered};
ghost use Rattle.recover.specs.Answers.{DraftReady, RecoverAnswers};

use layout::errno::Errno;
use layout::image::Image;
use plan::rows::Rows;

pub mod outcome;

// The rows of a draft, which are answered only if their outcome is consistent. Scratch is as long as the image.
fn settle(
    image: &Image<'_>,
    draft: &Rows,
    plan: &mut [u8],
    scratch: &mut [u8],
) -> Result<usize, Errno>
    requires { DraftReady image.now.bytes.now image.now.shape draft.now × (plan_bytes ≤ length plan.old) × (length scratch.old ≡ length image.now.bytes.now) }
    ensures { RecoverAnswers (by_rows plan.old scratch.old image.now.bytes.now image.now.shape (pending_rows image.now.shape image.now.bytes.now)) result plan.new scratch.new }
{
    layout::bytes::copy(scratch, 0, image.bytes);
    outcome::apply(scratch, &draft.bytes, draft.count);
    if consistency::check(scratch).is_err() {
        encode::record::clear(scratch);
        return Err(Errno::NotRecoverable);
    }
    layout::bytes::copy(plan, 0, &draft.bytes);
    Ok(draft.count)
}

// A journal record that is set. Scratch is as long as the image.
fn pending(image: &Image<'_>, plan: &mut [u8], scratch: &mut [u8]) -> Result<usize, Errno>
    requires { (plan_bytes ≤ length plan.old) × (length scratch.old ≡ length image.now.bytes.now) × Read image.now.bytes.now image.now.shape }
    ensures { RecoverAnswers (by_rows plan.old scratch.old image.now.bytes.now image.now.shape (pending_rows image.now.shape image.now.bytes.now)) result plan.new scratch.new }
{
    match drafts::make(image) {
        Some(draft) => settle(image, &draft, plan, scratch),
        None => {
            encode::record::clear(scratch);
            Err(Errno::NotRecoverable)
        }
    }
}

// An image of a good layout: its journal record decides.
fn by_journal(image: &Image<'_>, plan: &mut [u8], scratch: &mut [u8]) -> Result<usize, Errno>
    requires { (plan_bytes ≤ length plan.old) × (length image.now.bytes.now ≤ length scratch.old) × Read image.now.bytes.now image.now.shape }
    ensures { RecoverAnswers (by_journal plan.old scratch.old image.now.bytes.now image.now.shape) result plan.new scratch.new }
{
    if !consistency::journal_clear(image) {
        let n = image.bytes.len();
        return pending(image, plan, &mut scratch[..n]);
    }
    if !consistency::bodies_good(image) {
        return Err(Errno::Inconsistent);
    }
    plan::clear(plan);
    layout::bytes::copy(scratch, 0, image.bytes);
    Ok(0)
}

// The job repair, which answers how many rows the plan has. The image is only read. Once it is done the plan has the rows, and
// scratch their outcome.
pub fn recover(image: &[u8], plan: &mut [u8], scratch: &mut [u8]) -> Result<usize, Errno>
    ensures { RecoverAnswers (recovered plan.old scratch.old image.now) result plan.new scratch.new }
{
    if plan.len() < plan::BYTES || scratch.len() < image.len() {
        return Err(Errno::ShortBuffer);
    }
    let image = Image::read(image).ok_or(Errno::Inconsistent)?;
    by_journal(&image, plan, scratch)
}
