// A directory entry, written whole or with another target.
ghost use Rattle.std.specs.Prelude.{◌≡◌, ◌+◌, ◌<◌, ◌≤◌, length};
ghost use Rattle.layout.specs.Limits.{entry_size, name_offset};
ghost use Rattle.encode.specs.Entry.{entry_bytes, retargeted};

// Makes the whole record an entry of this name.
pub fn write(r: &mut [u8], parent: usize, target: usize, name: &[u8])
    requires { (name_offset + length name.now ≤ length r.old) × (length name.now < 256) }
    ensures { r.new ≡ entry_bytes (length r.old) parent target name.now }
{
    crate::record::clear(r);
    crate::number::put16(r, 0, parent);
    crate::number::put16(r, 2, target);
    r[4] = name.len() as u8;
    layout::bytes::copy(r, 8, name);
}

pub fn set_target(r: &mut [u8], target: usize)
    requires { entry_size ≤ length r.old }
    ensures { r.new ≡ retargeted target r.old }
{
    crate::number::put16(r, 2, target);
}
