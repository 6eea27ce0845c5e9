// What an exchange leaves in the parents, by recount of the entries as it edits them, and its rows.
#![tactic(auto)]

ghost use Rattle.std.specs.Prelude.{◌≡◌, ◌+◌, ◌≤◌, ◌<◌};
ghost use Rattle.layout.specs.Seen.{seen};
ghost use Rattle.layout.specs.Limits.{entry_limit};
ghost use Rattle.recounts.specs.RecountLaws.{Two};
ghost use Rattle.exchanges.specs.Exchange.{back, children_exchanged, parent_after};

use layout::image::Image;
use recounts::Move;

pub mod rows;

// The same exchange, as the replaced inode sees it.
fn back(m: Move) -> Move
    ensures { result ≡ back m }
{
    Move {
        old: m.new,
        new: m.old,
        moved: m.replaced,
        from: m.into,
        into: m.from,
        replaced: m.moved,
        text: m.text,
        now: m.now,
    }
}

// How many child directories directory d has, by the entries as exchanged: the count as it stands tells it but for the two slots.
fn children(image: &Image<'_>, m: Move, d: usize) -> usize
    requires { Two m image.now.shape.entries }
    ensures { (result ≡ children_exchanged (seen image.now) m d) × (result ≤ entry_limit) }
{
    let stand = tree::child_directories(image, d);
    let second = recounts::one_if(recounts::makes_child(image, back(m), d));
    let first = recounts::one_if(recounts::makes_child(image, m, d));
    let old = recounts::one_if(tree::entry_holds_directory(image, d, m.old));
    let new = recounts::one_if(tree::entry_holds_directory(image, d, m.new));
    stand + second + first - old - new
}

// The old or the new parent, inode i.
fn parent(image: &Image<'_>, m: Move, i: usize) -> [u8; 32]
    requires { Two m image.now.shape.entries × (i < image.now.shape.inodes) }
    ensures { result ≡ parent_after image.now.shape image.now.bytes.now m i }
{
    let links = children(image, m, i) + 2;
    results::records::counted(image, i, links, m.now)
}
