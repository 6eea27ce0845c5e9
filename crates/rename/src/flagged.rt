// What the flags of a request ask of the case that both walks have found, and how it is answered.
ghost use Rattle.std.specs.Prelude.{◌≡◌};
ghost use Rattle.layout.specs.Seen.{seen};
ghost use Rattle.refusals.specs.Answered.{answered};
ghost use Rattle.refusals.specs.CaseIn.{CaseIn};
ghost use Rattle.refusals.specs.Rules.{decide};
ghost use Rattle.rename.specs.Order.{case_rules};

use layout::errno::Errno;
use layout::image::Image;
use layout::limits;
use paths::flags;
use paths::request::Request;
use refusals::case::{Case, Verdict};

// New's name has to be missing, or has to exist, or may be either; then the steps of an exchange, or those of a rename.
pub fn judge(image: &Image<'_>, q: Request, c: Case) -> Result<Verdict, Errno>
    requires { CaseIn (seen image.now) c }
    ensures { answered result ≡ decide (case_rules (seen image.now) q c) }
{
    if q.flags == flags::EXCHANGE {
        if c.replaced == limits::ABSENT {
            return Err(Errno::ENOENT);
        }
        return exchange_steps::judge(image, c);
    }
    if q.flags != flags::NO_REPLACE {
        return rename_steps::judge(image, c);
    }
    if c.replaced != limits::ABSENT {
        return Err(Errno::EEXIST);
    }
    rename_steps::judge(image, c)
}
