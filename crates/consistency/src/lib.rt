// The consistency of an image, and the job check.
#![tactic(auto)]

ghost use Rattle.std.specs.Prelude.{◌≡◌};
ghost use Rattle.layout.specs.Code.{code};
ghost use Rattle.consistency.specs.Sound.{journal_clear, bodies_good};
ghost use Rattle.consistency.specs.Consistent.{records_number, check_number};

use layout::errno::Errno;
use layout::image::Image;
use layout::limits;

pub mod entries;
pub mod handles;
pub mod texts;

// Whether the records in front of the journal record are consistent.
#[tactic(auto, using(crate::proofs::CheckedLaws::bodies_asked, crate::proofs::EntryFits::entries_named))]
pub fn bodies_good(image: &Image<'_>) -> bool
    ensures { result ≡ bodies_good image.now.shape image.now.bytes.now }
{
    if !image.is_directory(0) {
        return false;
    }
    let owners = tallies::text_owners(image);
    inodes::all_good(image, &owners)
        && entries::all_good(image)
        && !duplicates::has_duplicate(image)
        && texts::all_good(image, &owners)
        && handles::all_good(image)
}

// Whether the journal record is all zero.
#[tactic(auto, unfolding(crate::specs::Sound::journal_clear))]
pub fn journal_clear(image: &Image<'_>) -> bool
    ensures { result ≡ journal_clear image.now.shape image.now.bytes.now }
{
    layout::bytes::all_zero(image.journal(), 0, limits::JOURNAL_BYTES)
}

// Whether an image with a good layout is consistent, and why not.
pub fn checked(image: &Image<'_>) -> Result<(), Errno>
    ensures { code result ≡ records_number image.now.shape image.now.bytes.now }
{
    if !journal_clear(image) {
        return Err(Errno::JournalPending);
    }
    if bodies_good(image) {
        Ok(())
    } else {
        Err(Errno::Inconsistent)
    }
}

// The job check: nothing refuses a consistent image; 203 one whose journal record is not zero, and 201 any other bytes.
pub fn check(image: &[u8]) -> Result<(), Errno>
    ensures { code result ≡ check_number image.now }
{
    let Some(image) = Image::read(image) else {
        return Err(Errno::Inconsistent);
    };
    checked(&image)
}
