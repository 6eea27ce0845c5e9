// A record of zeros: a free one, and what a new one is written over.
ghost use Rattle.std.specs.Prelude.{◌≡◌, length, replicate};

pub fn clear(r: &mut [u8])
    ensures { r.new ≡ replicate (length r.old) 0 }
{
    r.fill(0);
}
