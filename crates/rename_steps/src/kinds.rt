// Steps 8 to 10 of the order of refusal: the types of the moved and the replaced inode decide.
ghost use Rattle.std.specs.Prelude.{◌≡◌, true, false};
ghost use Rattle.layout.specs.Code.{code};
ghost use Rattle.layout.specs.Seen.{seen};
ghost use Rattle.layout.specs.View.{is_directory};
ghost use Rattle.refusals.specs.CaseIn.{CaseIn};
ghost use Rattle.refusals.specs.Rules.{number_of, decide};
ghost use Rattle.rename_steps.specs.Steps.{kind_rules};

use crate::target;
use layout::errno::Errno;
use layout::image::Image;
use layout::kind::Kind;
use refusals::case::Case;
use refusals::reparented;

// Steps 8 to 10 of a directory. It may replace nothing, or a directory that has no entries.
#[tactic(auto, using(layout::proofs::ViewLaws::is_used_below))]
fn of_directory(image: &Image<'_>, c: Case) -> Result<(), Errno>
    requires { CaseIn (seen image.now) c × (is_directory (seen image.now) c.moved ≡ true) }
    ensures { code result ≡ number_of (decide (kind_rules (seen image.now) c)) }
{
    match image.kind(c.replaced) {
        Kind::Free => {
            if reparented::denied(image, c, c.moved) {
                return Err(Errno::EACCES);
            }
            Ok(())
        }
        Kind::Directory => {
            if reparented::denied(image, c, c.moved) {
                return Err(Errno::EACCES);
            }
            if target::has_entries(image, c.replaced) {
                return Err(Errno::ENOTEMPTY);
            }
            Ok(())
        }
        _ => Err(Errno::ENOTDIR),
    }
}

// Step 8 of anything else, of which steps 9 and 10 ask nothing.
fn of_other(image: &Image<'_>, c: Case) -> Result<(), Errno>
    requires { CaseIn (seen image.now) c × (is_directory (seen image.now) c.moved ≡ false) }
    ensures { code result ≡ number_of (decide (kind_rules (seen image.now) c)) }
{
    match image.kind(c.replaced) {
        Kind::Free => {
            if c.slash {
                return Err(Errno::ENOTDIR);
            }
            Ok(())
        }
        Kind::Directory => Err(Errno::EISDIR),
        _ => Ok(()),
    }
}

// Refuses by the first of steps 8 to 10 that does.
pub fn allow(image: &Image<'_>, c: Case) -> Result<(), Errno>
    requires { CaseIn (seen image.now) c }
    ensures { code result ≡ number_of (decide (kind_rules (seen image.now) c)) }
{
    match image.kind(c.moved) {
        Kind::Directory => of_directory(image, c),
        _ => of_other(image, c),
    }
}
