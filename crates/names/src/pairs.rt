// Two entries that share parent and name, and the search for such over all pairs.
ghost use Rattle.std.specs.Prelude.{◌≡◌, ◌<◌};
ghost use Rattle.seq.specs.Search.{any};
ghost use Rattle.layout.specs.Seen.{seen};
ghost use Rattle.names.specs.Name.{clash};
ghost use Rattle.names.specs.NameTests.{has_duplicate, Named};

use layout::image::Image;

// Whether the entries in slots i and j are in use and share parent and name.
#[tactic(auto, unfolding(layout::specs::View::view_of, crate::specs::Name::clash))]
pub fn entries_clash(image: &Image<'_>, i: usize, j: usize) -> bool
    requires { Named image.now.shape image.now.bytes.now × (i < image.now.shape.entries) × (j < image.now.shape.entries) }
    ensures { result ≡ clash (seen image.now) i j }
{
    let a = image.entry(i);
    let b = image.entry(j);
    a.name_length() != 0
        && b.name_length() != 0
        && a.parent() == b.parent()
        && layout::compare::compare(a.name(), b.name()).same
}

// Whether the entry in slot j shares parent and name with one in a slot before it.
fn clashes_before(image: &Image<'_>, j: usize) -> bool
    requires { Named image.now.shape image.now.bytes.now × (j < image.now.shape.entries) }
    ensures { result ≡ any (λ i. clash (seen image.now) i j) j }
{
    (0..j).any(|i| entries_clash(image, i, j))
}

// Whether two entries share parent and name: a search over all pairs, left at the first.
pub fn has_duplicate(image: &Image<'_>) -> bool
    requires { Named image.now.shape image.now.bytes.now }
    ensures { result ≡ has_duplicate (seen image.now) }
{
    (0..image.shape.entries).any(|j| clashes_before(image, j))
}
