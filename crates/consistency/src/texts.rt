// Consistent symlink texts.
ghost use Rattle.std.specs.Prelude.{◌≡◌, ◌<◌};
ghost use Rattle.seq.specs.Search.{all};
ghost use Rattle.layout.specs.Seen.{seen};
ghost use Rattle.tallies.specs.Tallies.{TextOwners};
ghost use Rattle.consistency.specs.Others.{text_good};
ghost use Rattle.consistency.specs.Sound.{text_linked};

use layout::image::Image;
use layout::limits;

// Whether some symlink has text t.
#[tactic(auto, using(tables::specs::TableLaws::any_first), unfolding(layout::specs::View::view_of, crate::specs::Sound::text_linked))]
fn linked(image: &Image<'_>, owners: &[u16; 65], t: usize) -> bool
    requires { (t < image.now.shape.texts) × TextOwners image.now.shape image.now.bytes.now owners.now }
    ensures { result ≡ text_linked (seen image.now) t }
{
    usize::from(owners[t]) < image.shape.inodes
}

// Whether text t fits its room, is followed by zeros, holds no zero, and belongs to a symlink if it is in use.
#[tactic(auto, unfolding(layout::specs::View::view_of, crate::specs::Others::text_good))]
fn good(image: &Image<'_>, owners: &[u16; 65], t: usize) -> bool
    requires { (t < image.now.shape.texts) × TextOwners image.now.shape image.now.bytes.now owners.now }
    ensures { result ≡ text_good image.now.shape image.now.bytes.now t }
{
    let r = image.text(t);
    let n = r.length();
    n <= limits::TEXT_ROOM
        && layout::bytes::all_zero(r.bytes, 1 + n, limits::TEXT_ROOM - n)
        && layout::bytes::no_zero(r.path())
        && (n == 0 || linked(image, owners, t))
}

// Whether every text is consistent.
pub fn all_good(image: &Image<'_>, owners: &[u16; 65]) -> bool
    requires { TextOwners image.now.shape image.now.bytes.now owners.now }
    ensures { result ≡ all (text_good image.now.shape image.now.bytes.now) image.now.shape.texts }
{
    (0..image.shape.texts).all(|t| good(image, owners, t))
}
