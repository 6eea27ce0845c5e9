// The sections whose records a row may replace, and the record that a range of the image is.
ghost use Rattle.std.specs.Prelude.{◌≡◌, ◌≤◌};
ghost use Rattle.plan.specs.Fit.{covers};
ghost use Rattle.apply.specs.Find.{one_of, Bounded};

use layout::{Shape, limits};

// Whether n bytes from at on are one of count records of width bytes, the first of them at start.
#[tactic(auto, using(crate::proofs::FindLaws::one_is, std::proofs::lemmas::Grind::common_steps))]
fn one_of(start: usize, width: usize, count: usize, at: usize, n: usize) -> bool
    requires { 1 ≤ width }
    ensures { result ≡ one_of start width count at n }
{
    n == width && start <= at && (at - start) % width == 0 && (at - start) / width < count
}

// Whether n bytes from at on are exactly one record that a row may replace: one of any section but that of the handles.
#[tactic(auto, using(crate::proofs::FindLaws::covers_is))]
pub fn covers(h: Shape, at: usize, n: usize) -> bool
    requires { Bounded h }
    ensures { result ≡ covers h at n }
{
    let entries = limits::CONTENTS_BYTES + limits::INODE_BYTES * h.inodes;
    one_of(limits::CONTENTS_BYTES, limits::INODE_BYTES, h.inodes, at, n)
        || one_of(entries, h.width, h.entries, at, n)
        || {
            // only here, so that a landing has no more on its stack than it needs
            let texts = entries + h.width * h.entries;
            let handles = texts + limits::TEXT_BYTES * h.texts;
            let journal = handles + limits::HANDLE_BYTES * h.handles;
            one_of(texts, limits::TEXT_BYTES, h.texts, at, n)
                || one_of(journal, limits::JOURNAL_BYTES, 1, at, n)
        }
}
