// The move that a rename or an exchange makes: what is taken from where to where, and the text that goes with what is replaced; and a
// rename's rows in a plan.
#![tactic(auto)]

ghost use Rattle.std.specs.Prelude.{◌≡◌};
ghost use Rattle.layout.specs.Seen.{seen};
ghost use Rattle.moves.specs.Plan.{move_with, freed_text, move_of, exchange_of};

use layout::image::Image;
use layout::limits;
use recounts::Move;
use refusals::case::Case;

pub mod rows;

fn move_with(c: Case, time: u64, text: usize) -> Move
    ensures { result ≡ move_with c time text }
{
    Move {
        old: c.old,
        new: c.new,
        moved: c.moved,
        from: c.from,
        into: c.into,
        replaced: c.replaced,
        text,
        now: time,
    }
}

// The text of a replaced symlink that has no entry left, or limits::ABSENT.
fn freed_text(image: &Image<'_>, c: Case, time: u64) -> usize
    ensures { result ≡ freed_text (seen image.now) c time }
{
    let replaced = c.replaced;
    if !image.is_symlink(replaced) {
        return limits::ABSENT;
    }
    let m = move_with(c, time, limits::ABSENT);
    if recounts::entries_after(image, m, replaced) != 0 {
        return limits::ABSENT;
    }
    let r = image.inode(replaced);
    r.field()
}

pub fn move_of(image: &Image<'_>, c: Case, time: u64) -> Move
    ensures { result ≡ move_of (seen image.now) c time }
{
    let text = freed_text(image, c, time);
    move_with(c, time, text)
}

// The exchange of a case, which frees no text.
pub fn exchange_of(c: Case, time: u64) -> Move
    ensures { result ≡ exchange_of c time }
{
    move_with(c, time, limits::ABSENT)
}
