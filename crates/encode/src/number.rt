// Little-endian numbers written at an index.
ghost use Rattle.std.specs.Prelude.{◌≡◌, ◌+◌, ◌≤◌, length};
ghost use Rattle.seq.specs.Bytes.{put};
ghost use Rattle.seq.specs.Number.{bytes_of};

// Two bytes. Of a number that needs more, the low ones.
#[tactic(auto, using(seq::proofs::SliceLaws::write_two))]
pub fn put16(d: &mut [u8], at: usize, v: usize)
    requires { at + 2 ≤ length d.old }
    ensures { d.new ≡ put d.old at (bytes_of 2 v) }
{
    layout::bytes::copy(d, at, &v.to_le_bytes()[..2]);
}

pub fn put64(d: &mut [u8], at: usize, v: u64)
    requires { at + 8 ≤ length d.old }
    ensures { d.new ≡ put d.old at (bytes_of 8 v) }
{
    layout::bytes::copy(d, at, &v.to_le_bytes());
}
