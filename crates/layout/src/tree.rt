// An image whose numbers all lead somewhere.
ghost use Rattle.layout.specs.Facts.{Readable};

use crate::image::Image;

// What a reader that follows the numbers of records is handed. A consistent image is such a tree.
#[derive(Clone, Copy)]
pub struct Tree<'a> {
    pub image: Image<'a>,
    ghost readable: { Readable image.shape image.bytes.now },
}
