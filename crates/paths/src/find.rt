// A name looked up in a directory.
ghost use Rattle.std.specs.Prelude.{◌≡◌, false, ◌+◌, ◌≤◌, ◌<◌, eqb};
ghost use Rattle.seq.specs.Search.{any};
ghost use Rattle.layout.specs.Seen.{seen};
ghost use Rattle.paths.specs.Lookup.{is_named, lookup};
ghost use Rattle.paths.specs.LookupFacts.{Skips};

use layout::image::Image;
use layout::tree::Tree;

// Whether the entry in slot j is in use, lies in directory d and has this name. Where a run ends the entry mostly lies elsewhere, so that is
// asked first.
#[tactic(auto, unfolding(layout::specs::View::view_of, crate::specs::Lookup::is_named))]
fn is_named(tree: &Tree<'_>, d: usize, name: &[u8], j: usize) -> bool
    requires { j < tree.now.image.shape.entries }
    ensures { result ≡ is_named (seen tree.now.image) d name.now j }
{
    let e = tree.image.entry(j);
    e.parent() == d && e.name_length() != 0 && layout::compare::compare(e.name(), name).same
}

// Whether the entry in slot j lies in directory d. A free one counts as well.
#[tactic(auto, unfolding(layout::specs::View::view_of))]
fn lies_in(image: &Image<'_>, d: usize, j: usize) -> bool
    requires { j < image.now.shape.entries }
    ensures { result ≡ eqb ((seen image.now).parent j) d }
{
    image.entry(j).parent() == d
}

// Whether one of the four entries from slot j on lies in directory d.
fn one_of_four(image: &Image<'_>, d: usize, j: usize) -> bool
    requires { j + 4 ≤ image.now.shape.entries }
    ensures { result ≡ false → Skips (seen image.now) d j (j + 4) }
{
    lies_in(image, d, j)
        || lies_in(image, d, j + 1)
        || lies_in(image, d, j + 2)
        || lies_in(image, d, j + 3)
}

// The first slot, by fours from a slot on, where one of four entries lies in directory d, or where no four are left.
fn past_fours(image: &Image<'_>, d: usize, from: usize) -> usize
    requires { from ≤ image.now.shape.entries }
    ensures { (from ≤ result) × (result ≤ image.now.shape.entries) × Skips (seen image.now) d from result }
{
    let mut j = from;
    while j + 4 <= image.shape.entries && !one_of_four(image, d, j) {
        j += 4;
    }
    j
}

// The first slot from a slot on whose entry lies in directory d, or the number of slots. Most entries lie elsewhere, so it goes by fours first,
// with one jump for each four, which a chain over single slots would not give.
#[tactic(auto, using(crate::proofs::LookupLaws::skip_more))]
fn held_from(image: &Image<'_>, d: usize, from: usize) -> usize
    requires { from ≤ image.now.shape.entries }
    ensures { (from ≤ result) × (result ≤ image.now.shape.entries) × Skips (seen image.now) d from result }
{
    let n = image.shape.entries;
    for j in past_fours(image, d, from)..n {
        if lies_in(image, d, j) {
            return j;
        }
    }
    n
}

// The first slot from a slot on that has the name or whose entry lies elsewhere, or the number of slots: a directory's entries often stand in a
// row, and there the steps by fours would only cost.
#[tactic(auto, using(seq::proofs::SearchLaws::any_miss))]
fn run_from(tree: &Tree<'_>, d: usize, name: &[u8], from: usize) -> usize
    requires { (from ≤ tree.now.image.shape.entries) × (any (is_named (seen tree.now.image) d name.now) from ≡ false) }
    ensures { (from ≤ result) × (result ≤ tree.now.image.shape.entries) × (any (is_named (seen tree.now.image) d name.now) result ≡ false) }
{
    let n = tree.image.shape.entries;
    for j in from..n {
        if !lies_in(&tree.image, d, j) || is_named(tree, d, name, j) {
            return j;
        }
    }
    n
}

// The slot of a name in directory d, or the number of slots where there is none: run by run of the directory's entries.
pub fn find(tree: &Tree<'_>, d: usize, name: &[u8]) -> usize
    ensures { (result ≡ lookup (seen tree.now.image) d name.now) × (result ≤ tree.now.image.shape.entries) }
{
    let n = tree.image.shape.entries;
    let mut j: usize = 0;
    while j < n {
        let k = run_from(tree, d, name, j);
        if k == n || is_named(tree, d, name, k) {
            return k;
        }
        j = held_from(&tree.image, d, k + 1);
    }
    n
}
