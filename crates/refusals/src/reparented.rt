// What both orders ask of a directory that gets another parent.
ghost use Rattle.std.specs.Prelude.{◌≡◌, ◌&&◌, not, ◌<◌, eqb};
ghost use Rattle.layout.specs.Seen.{seen};
ghost use Rattle.layout.specs.View.{is_directory};
ghost use Rattle.refusals.specs.Case.{may_write};

use crate::case::Case;
use crate::parents;
use layout::image::Image;

// Whether inode i, one of the two of a case, is a directory that gets another parent.
pub fn reparents(image: &Image<'_>, c: Case, i: usize) -> bool
    ensures { result ≡ (is_directory (seen image.now) i && not (eqb c.from c.into)) }
{
    image.is_directory(i) && c.from != c.into
}

// Whether it is one, and write permission is denied on it.
pub fn denied(image: &Image<'_>, c: Case, i: usize) -> bool
    requires { i < image.now.shape.inodes }
    ensures { result ≡ (is_directory (seen image.now) i && not (eqb c.from c.into) && not (may_write (seen image.now) c.who i)) }
{
    reparents(image, c, i) && parents::no_write(image, c.who, i)
}
