// An image of a good layout: its bytes with the shape that its table of contents tells.
ghost use Rattle.layout.specs.Facts.{Laid};

use crate::Shape;

// What every reader of records is handed. The shape is that of these bytes, so whatever record it counts is there.
#[derive(Clone, Copy)]
pub struct Image<'a> {
    pub bytes: &'a [u8],
    pub shape: Shape,
    ghost laid: { Laid shape bytes.now },
}
