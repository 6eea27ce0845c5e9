// Permission: the class that the caller falls in decides.
ghost use Rattle.std.specs.Prelude.{◌≡◌, ◌≤◌, ◌<◌};
ghost use Rattle.layout.specs.Seen.{seen};
ghost use Rattle.paths.specs.Permission.{weight, allows};

use crate::groups;
use crate::request::Credentials;
use layout::image::Image;

// The bits that are asked for, by their weight in the others' class.
pub const SEARCH_BIT: usize = 1;

pub const WRITE_BIT: usize = 2;

// The weight of a bit in the class that the caller falls in on inode i: the owner's, else the group's, else the others'.
#[tactic(auto, unfolding(layout::specs::View::view_of))]
fn weight(image: &Image<'_>, who: Credentials, i: usize, bit: usize) -> usize
    requires { (i < image.now.shape.inodes) × (1 ≤ bit) × (bit ≤ 2) }
    ensures { (result ≡ weight (seen image.now) who i bit) × (1 ≤ result) }
{
    let r = image.inode(i);
    if who.user == r.owner() {
        return 64 * bit;
    }
    if groups::in_group(who, r.group()) {
        return 8 * bit;
    }
    bit
}

// Whether the caller has this bit on inode i.
#[tactic(auto, unfolding(layout::specs::View::view_of, crate::specs::Permission::allows))]
pub fn allows(image: &Image<'_>, who: Credentials, i: usize, bit: usize) -> bool
    requires { (i < image.now.shape.inodes) × (1 ≤ bit) × (bit ≤ 2) }
    ensures { result ≡ allows (seen image.now) who i bit }
{
    who.user == 0 || image.inode(i).mode() / weight(image, who, i, bit) % 2 == 1
}
