// A move, and entries counted as it edits them, on the image as it stands.
#![tactic(auto)]

ghost use Rattle.std.specs.Prelude.{◌≡◌, Bool, false, ◌&&◌, not, ℕ, ◌+◌, ◌≤◌, ◌<◌, eqb, ltb};
ghost use Rattle.seq.specs.Count.{bit};
ghost use Rattle.seq.specs.Search.{count};
ghost use Rattle.recounts.specs.Stands.{Stands};
ghost use Rattle.layout.specs.Seen.{seen};
ghost use Rattle.layout.specs.Limits.{entry_limit};
ghost use Rattle.layout.specs.View.{is_directory};
ghost use Rattle.recounts.specs.Recount.{edited, entries_after, children_after, links_after};

use layout::image::Image;

// Inode moved goes from slot old of directory from to slot new of directory into. A number of 65,535 names no replaced inode, and no text
// that is freed.
#[derive(Clone, Copy)]
pub struct Move {
    pub old: usize,
    pub new: usize,
    pub moved: usize,
    pub from: usize,
    pub into: usize,
    pub replaced: usize,
    pub text: usize,
    pub now: u64,
}

// Whether a move's slots are two of the first n.
fn edits_two(n: usize, m: Move) -> bool
    ensures { result ≡ (ltb m.old n && ltb m.new n && not (eqb m.old m.new)) }
{
    m.old < n && m.new < n && m.old != m.new
}

// How many of n entries count as a move edits them, where so many count as they stand, and the entry that is made counts or not. A move edits
// two slots, so that the count as it stands tells it but for these. Where they are not two of the image it goes slot by slot, by a `for`, since
// the closure of a chain would ask that `counts` may be called at any number.
fn count_edited<F: Fn(usize) -> bool>(
    n: usize,
    m: Move,
    stand: usize,
    made: bool,
    counts: F,
) -> usize
    requires many { n ≤ entry_limit }
    requires callable { (j : ℕ) → j < n → F.pre counts j }
    requires stands { (p : ℕ → Bool) × Stands (F.post counts) p n stand }
    ensures { (p : ℕ → Bool) → Stands (F.post counts) p n stand → (result ≡ count (λ j. edited m j false made (p j)) n) × (result ≤ entry_limit) }
{
    if edits_two(n, m) {
        let stood = usize::from(counts(m.old)) + usize::from(counts(m.new));
        return stand + usize::from(made) - stood;
    }
    let mut found: usize = 0;
    for j in 0..n {
        let counted = if j == m.old {
            false
        } else if j == m.new {
            made
        } else {
            counts(j)
        };
        found += usize::from(counted);
    }
    found
}

// How many entries, as edited, target inode i.
pub fn entries_after(image: &Image<'_>, m: Move, i: usize) -> usize
    ensures { (result ≡ entries_after (seen image.now) m i) × (result ≤ entry_limit) }
{
    let stand = tree::entries_of(image, i);
    count_edited(
        image.shape.entries,
        m,
        stand,
        m.moved == i,
        |j| tree::entry_targets(image, i, j),
    )
}

// Whether the entry that a move makes lies in directory d and targets a directory.
pub fn makes_child(image: &Image<'_>, m: Move, d: usize) -> bool
    ensures { result ≡ (eqb m.into d && is_directory (seen image.now) m.moved) }
{
    m.into == d && image.is_directory(m.moved)
}

// How many child directories directory d has, by the entries as edited.
pub fn children_after(image: &Image<'_>, m: Move, d: usize) -> usize
    ensures { (result ≡ children_after (seen image.now) m d) × (result ≤ entry_limit) }
{
    let stand = tree::child_directories(image, d);
    let made = makes_child(image, m, d);
    count_edited(
        image.shape.entries,
        m,
        stand,
        made,
        |j| tree::entry_holds_directory(image, d, j),
    )
}

// What an entry counts for.
pub fn one_if(counted: bool) -> usize
    ensures { (result ≡ bit counted) × (result ≤ 1) }
{
    usize::from(counted)
}

// The link count of inode i, by the entries as edited.
#[tactic(auto, unfolding(crate::specs::Recount::links_after))]
pub fn links_after(image: &Image<'_>, m: Move, i: usize) -> usize
    ensures { (result ≡ links_after (seen image.now) m i) × (result ≤ 2 + entry_limit) }
{
    if image.is_directory(i) {
        children_after(image, m, i) + 2
    } else {
        entries_after(image, m, i)
    }
}
