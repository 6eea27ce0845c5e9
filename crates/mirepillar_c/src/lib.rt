// The C library: include/mirepillar.h declares these functions. Each calls the one of its name in the library mirepillar, and promises the same.
#![tactic(auto)]

ghost use Rattle.std.specs.Prelude.{◌≡◌};
ghost use Rattle.consistency.specs.Consistent.{check_number};
ghost use Rattle.apply.specs.Apply.{apply_number, applied_image};
ghost use Rattle.rename.specs.Job.{renamed, plan_after};
ghost use Rattle.recover.specs.Job.{recovered};
ghost use Rattle.mirepillar.specs.Result.{request_of, packed, without_walks};

// The job check. The number is the whole result.
#[unsafe(no_mangle)]
pub extern "C" fn mp_check(image: &[u8]) -> u64
    ensures { result ≡ check_number image.now }
{
    mirepillar::mp_check(image)
}

// The job rename, or with its flag the exchange. The groups are those beside the effective one; of a list that is too long none is read. The starts of old and new are from and into.
#[unsafe(no_mangle)]
pub extern "C" fn mp_rename(
    image: &[u8],
    user: u32,
    group: u32,
    groups: &[u32],
    current: u16,
    from: u8,
    into: u8,
    time: u64,
    flags: u32,
    old: &[u8],
    new: &[u8],
    plan: &mut [u8],
) -> u64
    ensures { (result ≡ packed (renamed image.now plan.old (request_of user group groups.now current from into time flags) old.now new.now)) × (plan.new ≡ plan_after image.now plan.old (request_of user group groups.now current from into time flags) old.now new.now) }
{
    mirepillar::mp_rename(
        image, user, group, groups, current, from, into, time, flags, old, new, plan,
    )
}

// The job land, with its row taken as all 64 bits. The number is the whole result.
#[unsafe(no_mangle)]
pub extern "C" fn mp_land(image: &mut [u8], plan: &[u8], row: u64) -> u64
    ensures { (result ≡ apply_number image.old plan.now row) × (image.new ≡ applied_image image.old plan.now row) }
{
    mirepillar::mp_land(image, plan, row)
}

// The job repair. Its result has no counts.
#[unsafe(no_mangle)]
pub extern "C" fn mp_repair(image: &[u8], plan: &mut [u8], scratch: &mut [u8]) -> u64
    ensures { (result ≡ packed (without_walks (recovered plan.old scratch.old image.now))) × (plan.new ≡ (recovered plan.old scratch.old image.now).plan) × (scratch.new ≡ (recovered plan.old scratch.old image.now).scratch) }
{
    mirepillar::mp_repair(image, plan, scratch)
}
