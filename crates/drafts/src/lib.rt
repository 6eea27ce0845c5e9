// The draft of a recovery: the rows that a journal record leads to, by the kind of its operation, before their outcome is checked.
#![tactic(auto)]

ghost use Rattle.drafts.specs.Draft.{draft};
ghost use Rattle.rename_drafts.specs.Drafted.{Drafted};

use encode::journal::Operation;
use layout::image::Image;
use plan::rows::Rows;

// The rows, which the kind of the operation says who makes, where the record fits.
pub fn make(image: &Image<'_>) -> Option<Rows>
    ensures { Drafted image.now.shape (draft image.now.shape image.now.bytes.now) result }
{
    let r = image.journal();
    if !encode::journal::formed(r) {
        return None;
    }
    let j = encode::journal::read(r);
    match Operation::try_from(j.kind) {
        Ok(Operation::Rename) => rename_drafts::draft(image, j),
        Ok(Operation::Exchange) => exchange_drafts::draft(image, j),
        Err(_) => None,
    }
}
