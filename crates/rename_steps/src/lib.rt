// The order of refusal of a rename once both walks are whole: steps 1 to 13.
#![tactic(auto)]

ghost use Rattle.std.specs.Prelude.{◌≡◌};
ghost use Rattle.layout.specs.Seen.{seen};
ghost use Rattle.refusals.specs.Answered.{answered};
ghost use Rattle.refusals.specs.CaseIn.{CaseIn};
ghost use Rattle.refusals.specs.Rules.{decide};
ghost use Rattle.rename_steps.specs.Steps.{steps};

use layout::errno::Errno;
use layout::image::Image;
use refusals::case::{Case, Verdict};
use refusals::parents;

pub mod kinds;
pub mod target;

// How a rename is answered, whose walks have found this case.
#[tactic(auto, using(crate::proofs::StepsLaws::ways, refusals::proofs::WithinLaws::case_within))]
pub fn judge(image: &Image<'_>, c: Case) -> Result<Verdict, Errno>
    requires { CaseIn (seen image.now) c }
    ensures { answered result ≡ decide (steps (seen image.now) c) }
{
    if c.moved == c.replaced {
        return Ok(Verdict::Same);
    }
    parents::allow(image, c)?;
    kinds::allow(image, c)?;
    target::allow(image, c)?;
    Ok(Verdict::Planned)
}
