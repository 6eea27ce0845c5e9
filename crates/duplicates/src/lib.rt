// Duplicate names: whether two entries share parent and name. A search over pairs, but only of entries whose parent and name have the same hash.
#![tactic(auto)]

ghost use Rattle.std.specs.Prelude.{◌≡◌, ◌<◌, ◌≤◌, length};
ghost use Rattle.std.specs.Option.{IfSome};
ghost use Rattle.layout.specs.Seen.{seen};
ghost use Rattle.names.specs.NameTests.{has_duplicate, Named};
ghost use Rattle.duplicates.specs.Bucket.{mixed_of, bucket_at, buckets};

use layout::entry::Entry;
use layout::image::Image;
use layout::limits;

const BUCKETS: usize = 2048;

// The bucket of an entry in use, from its bytes: its parent and its name decide it.
fn mixed(e: &Entry<'_>) -> usize
    ensures { (result ≡ mixed_of e.now.bytes.now) × (result < buckets) }
{
    let p = e.parent() as u64;
    let a = layout::number::get32(e.bytes, 8) as u64;
    let b = layout::number::get32(e.bytes, 12) as u64;
    let c = layout::number::get32(e.bytes, 16) as u64;
    let d = layout::number::get32(e.bytes, 20) as u64;
    let f = layout::number::get32(e.bytes, 24) as u64;
    let g = layout::number::get32(e.bytes, 28) as u64;
    let sum = 169887418117 * p
        + 485705883 * a
        + 455026109 * b
        + 297635077 * c
        + 338131279 * d
        + 276088621 * f
        + 306404477 * g;
    (sum / 134217728 % 2048) as usize
}

// The bucket of the entry in slot j; one past the last where it is free.
fn bucket(image: &Image<'_>, j: usize) -> usize
    requires { Named image.now.shape image.now.bytes.now × (j < image.now.shape.entries) }
    ensures { (result ≡ bucket_at (seen image.now) j) × (result ≤ buckets) }
{
    let e = image.entry(j);
    if e.name_length() == 0 {
        BUCKETS
    } else {
        mixed(&e)
    }
}

// The search by buckets: over the pairs of each, left at the first that clash. `heads` has one more than the last entry of each bucket so
// far, `nexts` the same for the one before each entry. After as many pairs as there may be entries it gives up, and answers nothing.
fn by_bucket(image: &Image<'_>) -> Option<bool>
    requires { Named image.now.shape image.now.bytes.now }
    ensures { IfSome result (λ found. found ≡ has_duplicate (seen image.now)) }
{
    let mut heads = [0u16; BUCKETS];
    let mut nexts = [0u16; limits::ENTRY_LIMIT];
    let mut left = limits::ENTRY_LIMIT;
    let mut found = Some(false);
    'pairs: for j in 0..image.shape.entries {
        let b = bucket(image, j);
        if b == BUCKETS {
            continue 'pairs;
        }
        let head = heads[b];
        nexts[j] = head;
        heads[b] = (j + 1) as u16;
        let mut at = usize::from(head);
        while 0 < at {
            if left == 0 {
                found = None;
                break 'pairs;
            }
            left -= 1;
            let i = at - 1;
            if names::pairs::entries_clash(image, i, j) {
                found = Some(true);
                break 'pairs;
            }
            at = usize::from(nexts[i]);
        }
    }
    found
}

// Whether two entries share parent and name: by buckets, and where that gives up by the entries' order, so that names chosen to crowd into
// one bucket cost no search over all pairs. The tables of buckets are gone by then: the stack never holds them beside those of the order.
pub fn has_duplicate(image: &Image<'_>) -> bool
    requires { Named image.now.shape image.now.bytes.now }
    ensures { result ≡ has_duplicate (seen image.now) }
{
    match by_bucket(image) {
        Some(found) => found,
        None => order::has_duplicate(image),
    }
}
