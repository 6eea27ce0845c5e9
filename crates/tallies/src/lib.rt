// What check asks of every inode at once, each in one pass: how many entries and child directories it has, which symlink has a text, and where the way up
// leads.
#![tactic(auto)]

ghost use Rattle.std.specs.Prelude.{◌≡◌, ◌≤◌, ◌<◌, true};
ghost use Rattle.seq.specs.Search.{first};
ghost use Rattle.layout.specs.Seen.{seen};
ghost use Rattle.layout.specs.Limits.{inode_limit, text_limit};
ghost use Rattle.layout.specs.View.{is_directory};
ghost use Rattle.tree.specs.Tree.{entries_of, child_directories, reaches, has_text};
ghost use Rattle.tallies.specs.Tallies.{target_slot, holder_slot, text_slot, Blank, EntryCounts, ChildCounts, Tops, TextOwners};

use layout::image::Image;
use layout::limits;

pub mod tops;

// An image with what check counts and looks for of every inode. The tables are lent, so that none is copied.
#[derive(Clone, Copy)]
pub struct Tallies<'a> {
    pub image: Image<'a>,
    // How many entries target each inode.
    pub entries: &'a [u16; 513],
    // How many child directories each directory has.
    pub children: &'a [u16; 513],
    // Where the way up from each directory leads.
    pub tops: &'a [u16; 512],
    // The first symlink that has each text.
    pub owners: &'a [u16; 65],
    ghost counted: { EntryCounts image.shape image.bytes.now entries.now },
    ghost held: { ChildCounts image.shape image.bytes.now children.now },
    ghost climbed: { Tops image.shape image.bytes.now tops.now },
    ghost owned: { TextOwners image.shape image.bytes.now owners.now },
}

impl Tallies<'_> {
    // How many entries target inode i.
    pub fn entries(&self, i: usize) -> usize
        requires { i < self.now.image.shape.inodes }
        ensures { result ≡ entries_of (seen self.now.image) i }
    {
        usize::from(self.entries[i])
    }

    // How many child directories directory i has.
    pub fn children(&self, i: usize) -> usize
        requires { i < self.now.image.shape.inodes }
        ensures { (result ≡ child_directories (seen self.now.image) i) × (result < 65536) }
    {
        usize::from(self.children[i])
    }

    // Whether the way up from directory i leads to the root.
    pub fn leads_to_root(&self, i: usize) -> bool
        requires { (i < self.now.image.shape.inodes) × (is_directory (seen self.now.image) i ≡ true) }
        ensures { result ≡ reaches (seen self.now.image) 0 self.now.image.shape.inodes i }
    {
        self.tops[i] == 0
    }

    // The first symlink that has text t; the number of inodes where none has it.
    pub fn owner(&self, t: usize) -> usize
        requires { t < self.now.image.shape.texts }
        ensures { result ≡ first (has_text (seen self.now.image) t) self.now.image.shape.inodes }
    {
        usize::from(self.owners[t])
    }
}

// The inode that the entry in slot j targets; one past the last where it is free or targets none.
#[tactic(auto, unfolding(layout::specs::View::view_of, crate::specs::Tallies::target_slot))]
fn target_slot(image: &Image<'_>, j: usize) -> usize
    requires { j < image.now.shape.entries }
    ensures { (result ≡ target_slot (seen image.now) j) × (result ≤ inode_limit) }
{
    let e = image.entry(j);
    if e.name_length() != 0 && e.target() < image.shape.inodes {
        e.target()
    } else {
        limits::INODE_LIMIT
    }
}

// The inode that holds the entry in slot j, if that targets a directory; else one past the last.
#[tactic(auto, unfolding(layout::specs::View::view_of, crate::specs::Tallies::holder_slot))]
fn holder_slot(image: &Image<'_>, j: usize) -> usize
    requires { j < image.now.shape.entries }
    ensures { (result ≡ holder_slot (seen image.now) j) × (result ≤ inode_limit) }
{
    let e = image.entry(j);
    if e.name_length() != 0 && image.is_directory(e.target()) && e.parent() < image.shape.inodes {
        e.parent()
    } else {
        limits::INODE_LIMIT
    }
}

// How many entries target each inode, and how many child directories each directory has. Both tables are the caller's, so that none is copied.
pub fn counts(image: &Image<'_>, entries: &mut [u16; 513], children: &mut [u16; 513])
    requires { Blank 513 entries.old × Blank 513 children.old }
    ensures { EntryCounts image.now.shape image.now.bytes.now entries.new × ChildCounts image.now.shape image.now.bytes.now children.new }
{
    for j in 0..image.shape.entries {
        entries[target_slot(image, j)] += 1;
        children[holder_slot(image, j)] += 1;
    }
}

// The text of inode i, if it is a symlink that has one; else one past the last.
#[tactic(auto, unfolding(layout::specs::View::view_of, crate::specs::Tallies::text_slot))]
fn text_slot(image: &Image<'_>, i: usize) -> usize
    requires { i < image.now.shape.inodes }
    ensures { (result ≡ text_slot (seen image.now) i) × (result ≤ text_limit) }
{
    let r = image.inode(i);
    if image.is_symlink(i) && r.field() < image.shape.texts {
        r.field()
    } else {
        limits::TEXT_LIMIT
    }
}

// The first symlink that has each text; the number of inodes where none has it. It is filled from the last inode down, so that the first stays.
pub fn text_owners(image: &Image<'_>) -> [u16; 65]
    ensures { TextOwners image.now.shape image.now.bytes.now result }
{
    let n = image.shape.inodes;
    let mut first = [n as u16; 65];
    for i in (0..n).rev() {
        first[text_slot(image, i)] = i as u16;
    }
    first
}
