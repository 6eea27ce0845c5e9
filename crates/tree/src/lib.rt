// The directory tree: the entries of a file, child directories, and the way up.
#![tactic(auto)]

ghost use Rattle.std.specs.Prelude.{◌≡◌, ◌≤◌, ◌<◌};
ghost use Rattle.layout.specs.Seen.{seen};
ghost use Rattle.layout.specs.Limits.{entry_limit};
ghost use Rattle.tree.specs.Tree.{targets, entries_of, holds_directory, child_directories, reaches};

use layout::image::Image;

// Whether the entry in slot j is in use and targets inode i. Few entries do, so that is asked first.
pub fn entry_targets(image: &Image<'_>, i: usize, j: usize) -> bool
    requires { j < image.now.shape.entries }
    ensures { result ≡ targets (seen image.now) i j }
{
    let e = image.entry(j);
    e.target() == i && e.name_length() != 0
}

// How many entries target inode i.
pub fn entries_of(image: &Image<'_>, i: usize) -> usize
    ensures { result ≡ entries_of (seen image.now) i }
{
    (0..image.shape.entries)
        .filter(|j| entry_targets(image, i, *j))
        .count()
}

// Whether the entry in slot j is in use, lies in directory i and targets a directory. Few entries lie there, so that is asked first.
pub fn entry_holds_directory(image: &Image<'_>, i: usize, j: usize) -> bool
    requires { j < image.now.shape.entries }
    ensures { result ≡ holds_directory (seen image.now) i j }
{
    let e = image.entry(j);
    e.parent() == i && e.name_length() != 0 && image.is_directory(e.target())
}

// How many child directories directory i has.
pub fn child_directories(image: &Image<'_>, i: usize) -> usize
    ensures { (result ≡ child_directories (seen image.now) i) × (result ≤ entry_limit) }
{
    (0..image.shape.entries)
        .filter(|j| entry_holds_directory(image, i, *j))
        .count()
}

// Whether inode i is the goal, or the goal is above it. More steps than there are inodes would go round in a circle, or stay at the root, which is its own
// parent.
pub fn is_above(image: &Image<'_>, goal: usize, i: usize) -> bool
    requires { i < image.now.shape.inodes }
    ensures { result ≡ reaches (seen image.now) goal image.now.shape.inodes i }
{
    let mut at = i;
    for _ in 0..image.shape.inodes {
        if at == goal {
            return true;
        }
        at = image.inode(at).field();
        if !image.is_directory(at) {
            return false;
        }
    }
    at == goal
}
