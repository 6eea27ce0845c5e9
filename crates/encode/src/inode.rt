// An inode's fields, written over its bytes.
ghost use Rattle.std.specs.Prelude.{◌≡◌, ◌≤◌, length};
ghost use Rattle.layout.specs.Limits.{inode_size};
ghost use Rattle.encode.specs.Inode.{with_links, with_field, with_modified, with_changed};

pub fn set_links(r: &mut [u8], n: usize)
    requires { inode_size ≤ length r.old }
    ensures { r.new ≡ with_links n r.old }
{
    crate::number::put16(r, 12, n);
}

// A directory's parent, a symlink's text.
pub fn set_field(r: &mut [u8], n: usize)
    requires { inode_size ≤ length r.old }
    ensures { r.new ≡ with_field n r.old }
{
    crate::number::put16(r, 14, n);
}

pub fn set_modified(r: &mut [u8], time: u64)
    requires { inode_size ≤ length r.old }
    ensures { r.new ≡ with_modified time r.old }
{
    crate::number::put64(r, 16, time);
}

pub fn set_changed(r: &mut [u8], time: u64)
    requires { inode_size ≤ length r.old }
    ensures { r.new ≡ with_changed time r.old }
{
    crate::number::put64(r, 24, time);
}
