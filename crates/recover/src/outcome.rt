// The outcome of a recovery: the rows of a plan applied one after another.
ghost use Rattle.std.specs.Prelude.{◌≡◌};
ghost use Rattle.recover.specs.Outcome.{applied_from};

// Applies the first n rows of a plan, in the order of their numbers.
pub fn apply(image: &mut [u8], plan: &[u8], n: usize)
    ensures { image.new ≡ applied_from image.old plan.now 0 n }
{
    for i in 0..n {
        let _ = apply::land(image, plan, i as u64);
    }
}
