// Consistent inodes: what the type number asks of each. What has to be counted or looked for is tallied for all inodes at once.
#![tactic(auto)]

ghost use Rattle.std.specs.Prelude.{◌≡◌, true, ◌<◌};
ghost use Rattle.seq.specs.Search.{all};
ghost use Rattle.layout.specs.Seen.{seen};
ghost use Rattle.layout.specs.View.{is_directory, text_used};
ghost use Rattle.tallies.specs.Tallies.{TextOwners};
ghost use Rattle.tree.specs.Inode.{leaf_good, file_good, directory_placed, directory_good, symlink_good, inode_good};

use layout::image::Image;
use layout::kind::Kind;
use layout::limits;
use tallies::Tallies;

// What a file and a symlink share: mode and link count.
#[tactic(auto, unfolding(layout::specs::View::view_of, tree::specs::Inode::leaf_good))]
fn leaf_good(tallies: &Tallies<'_>, i: usize) -> bool
    requires { i < tallies.now.image.shape.inodes }
    ensures { result ≡ leaf_good (seen tallies.now.image) i }
{
    let r = tallies.image.inode(i);
    let links = r.links();
    r.mode() < limits::MODE_LIMIT
        && links <= limits::LINK_LIMIT
        && 1 <= links
        && links == tallies.entries(i)
}

#[tactic(auto, unfolding(layout::specs::View::view_of, tree::specs::Inode::file_good))]
fn file_good(tallies: &Tallies<'_>, i: usize) -> bool
    requires { i < tallies.now.image.shape.inodes }
    ensures { result ≡ file_good (seen tallies.now.image) i }
{
    leaf_good(tallies, i) && tallies.image.inode(i).field() == 0
}

// The root is its own parent; any other directory has one entry and leads to the root.
#[tactic(auto, unfolding(layout::specs::View::view_of))]
fn directory_placed(tallies: &Tallies<'_>, i: usize) -> bool
    requires { (i < tallies.now.image.shape.inodes) × (is_directory (seen tallies.now.image) i ≡ true) }
    ensures { result ≡ directory_placed (seen tallies.now.image) i }
{
    if i == 0 {
        tallies.image.inode(i).field() == 0
    } else {
        tallies.entries(i) == 1 && tallies.leads_to_root(i)
    }
}

#[tactic(auto, unfolding(layout::specs::View::view_of, tree::specs::Inode::directory_good))]
fn directory_good(tallies: &Tallies<'_>, i: usize) -> bool
    requires { (i < tallies.now.image.shape.inodes) × (is_directory (seen tallies.now.image) i ≡ true) }
    ensures { result ≡ directory_good (seen tallies.now.image) i }
{
    let r = tallies.image.inode(i);
    let links = r.links();
    r.mode() < limits::MODE_LIMIT
        && links <= limits::LINK_LIMIT
        && links == 2 + tallies.children(i)
        && directory_placed(tallies, i)
}

// Whether t is a text in use.
#[tactic(auto, unfolding(layout::specs::View::view_of))]
fn text_used(image: &Image<'_>, t: usize) -> bool
    requires { t < image.now.shape.texts }
    ensures { result ≡ text_used (seen image.now) t }
{
    image.text(t).length() != 0
}

#[tactic(auto, unfolding(layout::specs::View::view_of, tree::specs::Inode::symlink_good))]
fn symlink_good(tallies: &Tallies<'_>, i: usize) -> bool
    requires { i < tallies.now.image.shape.inodes }
    ensures { result ≡ symlink_good (seen tallies.now.image) i }
{
    let image = &tallies.image;
    let text = image.inode(i).field();
    // the last: no earlier symlink has the same text
    leaf_good(tallies, i)
        && text < image.shape.texts
        && text_used(image, text)
        && i <= tallies.owner(text)
}

// The type number decides what is asked of an inode.
fn good(tallies: &Tallies<'_>, i: usize) -> bool
    requires { i < tallies.now.image.shape.inodes }
    ensures { result ≡ inode_good tallies.now.image.shape tallies.now.image.bytes.now i }
{
    let r = tallies.image.inode(i);
    match r.kind() {
        Kind::Free => layout::bytes::all_zero(r.bytes, 0, 32),
        Kind::File => file_good(tallies, i),
        Kind::Directory => directory_good(tallies, i),
        Kind::Symlink => symlink_good(tallies, i),
        Kind::Unknown(_) => false,
    }
}

// Whether every inode is consistent. The owners of the texts are handed in, since the texts are tested by them too.
pub fn all_good(image: &Image<'_>, owners: &[u16; 65]) -> bool
    requires { TextOwners image.now.shape image.now.bytes.now owners.now }
    ensures { result ≡ all (inode_good image.now.shape image.now.bytes.now) image.now.shape.inodes }
{
    let mut entries = [0; 513];
    let mut children = [0; 513];
    tallies::counts(image, &mut entries, &mut children);
    let mut tops = [0; 512];
    tallies::tops::tops(image, &mut tops);
    let tallies = Tallies {
        image: *image,
        entries: &entries,
        children: &children,
        tops: &tops,
        owners,
    };
    (0..image.shape.inodes).all(|i| good(&tallies, i))
}
