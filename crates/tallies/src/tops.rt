// Where the way up leads, from every directory at once: each round takes every one as far again, in one table, so that few rounds take as many steps as
// there are inodes.
ghost use Rattle.std.specs.Prelude.{◌≡◌, ◌≤◌, ◌<◌, length};
ghost use Rattle.layout.specs.Seen.{seen};
ghost use Rattle.tables.specs.Table.{Table, Within};
ghost use Rattle.tallies.specs.Rounds.{round, Rooted};
ghost use Rattle.tallies.specs.Tallies.{above, Tops};

use layout::image::Image;

// The directory above: the root for the root and for what is no directory; a directory whose field names none stays where it is.
#[tactic(auto, using(layout::proofs::ViewLaws::is_kind_below), unfolding(layout::specs::View::view_of, crate::specs::Tallies::above))]
fn above(image: &Image<'_>, i: usize) -> usize
    requires { i < image.now.shape.inodes }
    ensures { (result ≡ above (seen image.now) i) × (result < image.now.shape.inodes) }
{
    if i == 0 || !image.is_directory(i) {
        return 0;
    }
    let field = image.inode(i).field();
    if image.is_directory(field) { field } else { i }
}

// The directory above each inode.
fn all_above(image: &Image<'_>, to: &mut [u16; 512])
    requires { length to.old ≡ 512 }
    ensures { Table (above (seen image.now)) image.now.shape.inodes to.new }
{
    for i in 0..image.shape.inodes {
        to[i] = above(image, i) as u16;
    }
}

// One round: each goes on to where the one that it has come to has come. The sum of where they are then is 0 only where all are at the root.
fn climb(to: &mut [u16; 512], n: usize) -> usize
    requires { (n ≤ 512) × Within n to.old }
    ensures { (to.new ≡ round n to.old) × (result ≡ 0 → Rooted n to.new) }
{
    let mut sum = 0;
    for i in 0..n {
        let top = to[usize::from(to[i])];
        to[i] = top;
        sum += usize::from(top);
    }
    sum
}

// Where at least as many steps up as there are inodes lead, or fewer if all are at the root before.
pub fn tops(image: &Image<'_>, to: &mut [u16; 512])
    requires { length to.old ≡ 512 }
    ensures { Tops image.now.shape image.now.bytes.now to.new }
{
    all_above(image, to);
    let mut size: usize = 1;
    while size < image.shape.inodes {
        if climb(to, image.shape.inodes) == 0 {
            return;
        }
        size += size;
    }
}
