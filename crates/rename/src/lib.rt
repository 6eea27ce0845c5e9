// The job rename, which is also asked for an exchange: judged in the order of refusal, and planned row by row.
#![tactic(auto)]

ghost use Rattle.std.specs.Prelude.{◌≡◌, ◌+◌, ◌≤◌, length};
ghost use Rattle.std.specs.Result.{result_unwrap_or};
ghost use Rattle.layout.specs.Code.{number, code};
ghost use Rattle.layout.specs.Facts.{Read};
ghost use Rattle.layout.specs.Seen.{seen};
ghost use Rattle.component.specs.State.{Ranged, finding_of};
ghost use Rattle.plan.specs.Form.{plan_bytes};
ghost use Rattle.results.specs.InImage.{InImage};
ghost use Rattle.exchanges.specs.Exchange.{exchange_rows, exchange_planned};
ghost use Rattle.exchanges.specs.InImage.{BothInImage};
ghost use Rattle.moves.specs.Plan.{move_of, exchange_of, rename_rows, planned};
ghost use Rattle.rename.specs.Order.{name_of};
ghost use Rattle.rename.specs.Renamed.{told};
ghost use Rattle.rename.specs.Answers.{refused_early, WalksBegin, RenameAnswers};

use component::state::{Found, Name};
use layout::errno::Errno;
use layout::image::Image;
use layout::tree::Tree;
use paths::request::Request;
use refusals::case::{Case, Verdict};
use walk::both::Walks;

pub mod flagged;
pub mod found;

// How the job is answered: how many rows the plan has, or why it is refused, and the component checks that the walks of old and new began.
#[derive(Clone, Copy)]
pub struct Renamed {
    pub rows: Result<usize, Errno>,
    pub old: usize,
    pub new: usize,
}

// A refusal before any walk.
fn refused(why: Errno) -> Renamed
    ensures { told result ≡ refused_early (number why) }
{
    Renamed {
        rows: Err(why),
        old: 0,
        new: 0,
    }
}

// An answer with the counts of these walks.
fn counted(rows: Result<usize, Errno>, walks: &Walks) -> Renamed
    ensures { told result ≡ record { number = code rows; rows = result_unwrap_or rows 0; old = walks.now.old.steps; new = walks.now.new.steps } }
{
    Renamed {
        rows,
        old: walks.old.steps,
        new: walks.new.steps,
    }
}

// Plans the case, under the name that new's walk found missing in its path, if it did. Answers how many rows there are.
fn write(plan: &mut [u8], image: &Image<'_>, c: Case, time: u64, to: Found, path: &[u8]) -> usize
    requires { (plan_bytes ≤ length plan.old) × Ranged path.now to × InImage image.now.shape (move_of (seen image.now) c time) × (8 + length (name_of (finding_of path.now to)) ≤ image.now.shape.width) }
    ensures { (plan.new ≡ planned image.now.shape image.now.bytes.now (move_of (seen image.now) c time) (name_of (finding_of path.now to)) plan.old) × (result ≡ length (rename_rows image.now.shape image.now.bytes.now (move_of (seen image.now) c time) (name_of (finding_of path.now to)))) }
{
    let m = moves::move_of(image, c, time);
    match to.name {
        Name::Missing { from, to } => moves::rows::put(plan, image, m, &path[from..to]),
        Name::Existing { slot: _, inode: _ } => moves::rows::put(plan, image, m, b""),
    }
}

// Plans the exchange of the case. Answers how many rows there are.
fn exchange(plan: &mut [u8], image: &Image<'_>, c: Case, time: u64) -> usize
    requires { (plan_bytes ≤ length plan.old) × BothInImage image.now.shape (exchange_of c time) }
    ensures { (plan.new ≡ exchange_planned image.now.shape image.now.bytes.now (exchange_of c time) plan.old) × (result ≡ length (exchange_rows image.now.shape image.now.bytes.now (exchange_of c time))) }
{
    exchanges::rows::fill(plan, image, moves::exchange_of(c, time))
}

// Both walks of a good request, and what is made of the case that they have found.
fn walked(image: &Image<'_>, q: Request, old: &[u8], new: &[u8], plan: &mut [u8]) -> Renamed
    requires { WalksBegin image.now.bytes.now plan.old q old.now new.now image.now.shape }
    ensures { RenameAnswers image.now.bytes.now plan.old q old.now new.now (told result) plan.new }
{
    let tree = Tree { image: *image };
    let walks = walk::both::both(&tree, q, old, new);
    let to = match walks.new.found {
        Err(why) => return counted(Err(why), &walks),
        Ok(to) => to,
    };
    let c = found::case_of(image, q, &walks.old, &walks.new);
    match flagged::judge(image, q, c) {
        Err(why) => counted(Err(why), &walks),
        Ok(Verdict::Same) => {
            plan::clear(plan);
            counted(Ok(0), &walks)
        }
        Ok(Verdict::Planned) => {
            let rows = write(plan, image, c, q.now, to, &walks.new.path);
            counted(Ok(rows), &walks)
        }
        Ok(Verdict::Exchanged) => {
            let rows = exchange(plan, image, c, q.now);
            counted(Ok(rows), &walks)
        }
    }
}

// A request on an image of a good layout.
fn asked(image: &Image<'_>, q: Request, old: &[u8], new: &[u8], plan: &mut [u8]) -> Renamed
    requires { (plan_bytes ≤ length plan.old) × Read image.now.bytes.now image.now.shape }
    ensures { RenameAnswers image.now.bytes.now plan.old q old.now new.now (told result) plan.new }
{
    if let Err(why) = consistency::checked(image) {
        return refused(why);
    }
    if !paths::request::good(image, q, old, new) {
        return refused(Errno::WrongRequest);
    }
    if !paths::flags::good(q) {
        return refused(Errno::EINVAL);
    }
    walked(image, q, old, new, plan)
}

// The job rename. The image is only read; the plan is written where the answer is 0, and else as it was.
pub fn rename(image: &[u8], q: Request, old: &[u8], new: &[u8], plan: &mut [u8]) -> Renamed
    ensures { RenameAnswers image.now plan.old q old.now new.now (told result) plan.new }
{
    if plan.len() < plan::BYTES {
        return refused(Errno::ShortBuffer);
    }
    let Some(image) = Image::read(image) else {
        return refused(Errno::Inconsistent);
    };
    asked(&image, q, old, new, plan)
}
