// Applying one row of a plan to an image: the job land.
#![tactic(auto)]

ghost use Rattle.std.specs.Prelude.{◌≡◌, ◌<◌, ◌≤◌, length};
ghost use Rattle.layout.specs.Code.{code};
ghost use Rattle.layout.specs.Facts.{Laid};
ghost use Rattle.plan.specs.Form.{plan_bytes, plan_rows, row_at};
ghost use Rattle.plan.specs.Fit.{is_fitting_row, applicable};
ghost use Rattle.apply.specs.Find.{Bounded};
ghost use Rattle.apply.specs.Apply.{row_number, apply_number, applied_image};
ghost use Rattle.apply.specs.OneRow.{row_image};

use layout::Shape;
use layout::errno::Errno;

pub mod sections;

// Whether an image of this shape can take row i.
#[tactic(auto, unfolding(plan::specs::Fit::is_fitting_row, plan::specs::Form::row_at))]
fn row_fits(h: Shape, plan: &[u8], i: usize) -> bool
    requires { Bounded h × (plan_bytes ≤ length plan.now) × (i < plan_rows) }
    ensures { result ≡ is_fitting_row h (row_at plan.now i) }
{
    let group = plan::group(plan, i);
    1 <= group
        && group <= plan::LAST_GROUP
        && sections::covers(h, plan::offset(plan, i), plan::length(plan, i))
}

// Whether the number is a row's, its header is in order, and the image can take it.
#[tactic(auto, unfolding(plan::specs::Fit::applicable))]
pub fn applicable(h: Shape, plan: &[u8], row: u64) -> bool
    requires { Bounded h × (plan_bytes ≤ length plan.now) }
    ensures { result ≡ applicable h plan.now row }
{
    if plan::ROWS as u64 <= row {
        return false;
    }
    let i = row as usize;
    plan::blank(plan, i) == 0
        && plan::position(plan, i) == plan::BODIES_AT + plan::BODY_BYTES * i
        && row_fits(h, plan, i)
}

// Applies a row where the plan is long enough and the layout good.
#[tactic(auto, using(crate::proofs::FindLaws::laid_bounded, crate::proofs::ApplyLaws::fitting))]
fn apply_row(image: &mut [u8], h: Shape, plan: &[u8], row: u64) -> Result<(), Errno>
    requires { Laid h image.old × (plan_bytes ≤ length plan.now) }
    ensures { (code result ≡ row_number h plan.now row) × (image.new ≡ row_image h image.old plan.now row) }
{
    if !applicable(h, plan, row) {
        return Err(Errno::BadRow);
    }
    let i = row as usize;
    layout::bytes::copy(image, plan::offset(plan, i), plan::body(plan, i));
    Ok(())
}

// The job land, for any image, plan and number: the row's body in its place, or the first refusal and the image as it was.
pub fn land(image: &mut [u8], plan: &[u8], row: u64) -> Result<(), Errno>
    ensures { (code result ≡ apply_number image.old plan.now row) × (image.new ≡ applied_image image.old plan.now row) }
{
    if plan.len() < plan::BYTES {
        return Err(Errno::ShortBuffer);
    }
    let h = layout::contents::read(image).ok_or(Errno::Inconsistent)?;
    apply_row(image, h, plan, row)
}
