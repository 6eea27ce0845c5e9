// The order of refusal of an exchange once both walks are whole: steps 1 to 7, 9 and 12.
#![tactic(auto)]

ghost use Rattle.std.specs.Prelude.{◌≡◌, true, ◌&&◌, not, ◌<◌, eqb};
ghost use Rattle.layout.specs.Code.{code};
ghost use Rattle.layout.specs.Seen.{seen};
ghost use Rattle.layout.specs.Limits.{link_limit};
ghost use Rattle.layout.specs.View.{is_directory, is_used};
ghost use Rattle.refusals.specs.Answered.{answered};
ghost use Rattle.refusals.specs.CaseIn.{CaseIn};
ghost use Rattle.refusals.specs.Within.{Within};
ghost use Rattle.exchange_steps.specs.Exchange.{replaced_above, other_rules, exchange_steps};
ghost use Rattle.refusals.specs.Rules.{number_of, decide};

use layout::errno::Errno;
use layout::image::Image;
use layout::limits;
use refusals::case::{Case, Verdict};
use refusals::{parents, reparented};

// Step 7 on the other side: the replaced inode is the old parent, or above it.
#[tactic(auto, unfolding(layout::specs::View::view_of))]
fn replaced_above(image: &Image<'_>, c: Case) -> bool
    requires { Within image.now.shape c × (c.replaced < image.now.shape.inodes) }
    ensures { result ≡ replaced_above (seen image.now) c }
{
    tree::is_above(image, c.replaced, c.from)
}

// Whether directory d has as many links as there may be, and would gain directory i for inode other.
#[tactic(auto, unfolding(layout::specs::View::view_of))]
fn full(image: &Image<'_>, c: Case, i: usize, other: usize, d: usize) -> bool
    requires { d < image.now.shape.inodes }
    ensures { result ≡ (is_directory (seen image.now) i && not (eqb c.from c.into) && not (is_directory (seen image.now) other) && eqb ((seen image.now).links d) link_limit) }
{
    reparented::reparents(image, c, i)
        && !image.is_directory(other)
        && image.inode(d).links() == limits::LINK_LIMIT
}

// Refuses by the first step behind the parents that does.
fn allow(image: &Image<'_>, c: Case) -> Result<(), Errno>
    requires { Within image.now.shape c × (c.replaced < image.now.shape.inodes) }
    ensures { code result ≡ number_of (decide (other_rules (seen image.now) c)) }
{
    if replaced_above(image, c) {
        return Err(Errno::EINVAL);
    }
    if reparented::denied(image, c, c.moved) {
        return Err(Errno::EACCES);
    }
    if reparented::denied(image, c, c.replaced) {
        return Err(Errno::EACCES);
    }
    if full(image, c, c.moved, c.replaced, c.into) {
        return Err(Errno::EMLINK);
    }
    if full(image, c, c.replaced, c.moved, c.from) {
        return Err(Errno::EMLINK);
    }
    Ok(())
}

// How an exchange is answered, whose walks have found this case: new's name exists.
#[tactic(auto, using(crate::specs::ExchangeLaws::ways, refusals::proofs::WithinLaws::case_within, layout::proofs::ViewLaws::is_used_below))]
pub fn judge(image: &Image<'_>, c: Case) -> Result<Verdict, Errno>
    requires { CaseIn (seen image.now) c × (is_used (seen image.now) c.replaced ≡ true) }
    ensures { answered result ≡ decide (exchange_steps (seen image.now) c) }
{
    if c.moved == c.replaced {
        return Ok(Verdict::Same);
    }
    parents::allow(image, c)?;
    allow(image, c)?;
    Ok(Verdict::Exchanged)
}
