// What a rename leaves in the records that it touches, made from their bytes as they stand.
ghost use Rattle.std.specs.Prelude.{◌≡◌, ◌<◌, length};
ghost use Rattle.layout.specs.View.{inode_at, entry_at};
ghost use Rattle.encode.specs.Entry.{retargeted};
ghost use Rattle.results.specs.Results.{holder_bytes, moved_after, holder_after, replaced_after};

use layout::image::Image;
use recounts::Move;

// Inode i as it stands, copied.
fn inode(image: &Image<'_>, i: usize) -> [u8; 32]
    requires { i < image.now.shape.inodes }
    ensures { result ≡ inode_at image.now.shape image.now.bytes.now i }
{
    let mut r = [0u8; 32];
    layout::bytes::copy(&mut r, 0, image.inode(i).bytes);
    r
}

// The moved inode.
pub fn moved(image: &Image<'_>, m: Move) -> [u8; 32]
    requires { m.moved < image.now.shape.inodes }
    ensures { result ≡ moved_after image.now.shape image.now.bytes.now m }
{
    let mut r = inode(image, m.moved);
    let kind = r[0];
    encode::inode::set_changed(&mut r, m.now);
    if kind != 2 {
        return r;
    }
    encode::inode::set_field(&mut r, m.into);
    r
}

// A parent, inode i, with its link count and both times.
pub fn counted(image: &Image<'_>, i: usize, links: usize, time: u64) -> [u8; 32]
    requires { i < image.now.shape.inodes }
    ensures { result ≡ holder_bytes links time (inode_at image.now.shape image.now.bytes.now i) }
{
    let mut r = inode(image, i);
    encode::inode::set_links(&mut r, links);
    encode::inode::set_modified(&mut r, time);
    encode::inode::set_changed(&mut r, time);
    r
}

// The old or the new parent, inode i.
pub fn holder(image: &Image<'_>, m: Move, i: usize) -> [u8; 32]
    requires { i < image.now.shape.inodes }
    ensures { result ≡ holder_after image.now.shape image.now.bytes.now m i }
{
    let links = recounts::links_after(image, m, i);
    counted(image, i, links, m.now)
}

// The replaced inode.
pub fn replaced(image: &Image<'_>, m: Move) -> [u8; 32]
    requires { m.replaced < image.now.shape.inodes }
    ensures { result ≡ replaced_after image.now.shape image.now.bytes.now m }
{
    let i = m.replaced;
    if recounts::entries_after(image, m, i) == 0 {
        return [0u8; 32];
    }
    let links = recounts::links_after(image, m, i);
    let mut r = inode(image, i);
    encode::inode::set_links(&mut r, links);
    encode::inode::set_changed(&mut r, m.now);
    r
}

// Makes the whole record the entry in a slot with another target.
pub fn retarget(r: &mut [u8], image: &Image<'_>, slot: usize, target: usize)
    requires { (slot < image.now.shape.entries) × (length r.old ≡ image.now.shape.width) }
    ensures { r.new ≡ retargeted target (entry_at image.now.shape image.now.bytes.now slot) }
{
    layout::bytes::copy(r, 0, image.entry(slot).bytes);
    encode::entry::set_target(r, target);
}
