// The jobs as a program calls them: every answer is one number. The crate mirepillar_c exports them to C, and include/mirepillar.h declares them.
#![tactic(auto)]

ghost use Rattle.std.specs.Prelude.{◌≡◌};
ghost use Rattle.consistency.specs.Consistent.{check_number};
ghost use Rattle.apply.specs.Apply.{apply_number, applied_image};
ghost use Rattle.rename.specs.Job.{renamed, plan_after};
ghost use Rattle.rename.specs.Renamed.{told};
ghost use Rattle.rename.specs.Answers.{Small};
ghost use Rattle.recover.specs.Job.{recovered};
ghost use Rattle.mirepillar.specs.Result.{request_of, packed, without_walks};

use layout::errno;
use paths::request::{Request, Starts};
use rename::Renamed;

// The job check. The number is the whole result.
pub fn mp_check(image: &[u8]) -> u64
    ensures { result ≡ check_number image.now }
{
    u64::from(errno::number(&consistency::check(image)))
}

// A result: each part in bits of its own.
fn joined(number: u8, rows: usize, old: usize, new: usize) -> u64
    requires { Small (record { number = number; rows = rows; old = old; new = new }) }
    ensures { result ≡ packed (record { number = number; rows = rows; old = old; new = new }) }
{
    u64::from(number) + 256 * (rows as u64) + 65536 * (old as u64) + 4294967296 * (new as u64)
}

// The result of a plan.
fn pack(r: Renamed) -> u64
    requires { Small (told r) }
    ensures { result ≡ packed (told r) }
{
    joined(errno::number(&r.rows), r.rows.unwrap_or(0), r.old, r.new)
}

// The job rename, or with its flag the exchange. The groups are those beside the effective one; of a list that is too long none is read. The starts of old and new are from and into.
pub fn mp_rename(
    image: &[u8],
    user: u32,
    group: u32,
    groups: &[u32],
    current: u16,
    from: u8,
    into: u8,
    time: u64,
    flags: u32,
    old: &[u8],
    new: &[u8],
    plan: &mut [u8],
) -> u64
    ensures { (result ≡ packed (renamed image.now plan.old (request_of user group groups.now current from into time flags) old.now new.now)) × (plan.new ≡ plan_after image.now plan.old (request_of user group groups.now current from into time flags) old.now new.now) }
{
    let who = paths::groups::credentials(user, group, groups);
    let starts = Starts {
        old: from,
        new: into,
    };
    let q = Request {
        who,
        current,
        starts,
        now: time,
        flags,
    };
    pack(rename::rename(image, q, old, new, plan))
}

// The job land, with its row taken as all 64 bits. The number is the whole result.
pub fn mp_land(image: &mut [u8], plan: &[u8], row: u64) -> u64
    ensures { (result ≡ apply_number image.old plan.now row) × (image.new ≡ applied_image image.old plan.now row) }
{
    u64::from(errno::number(&apply::land(image, plan, row)))
}

// The job repair. Its result has no counts.
pub fn mp_repair(image: &[u8], plan: &mut [u8], scratch: &mut [u8]) -> u64
    ensures { (result ≡ packed (without_walks (recovered plan.old scratch.old image.now))) × (plan.new ≡ (recovered plan.old scratch.old image.now).plan) × (scratch.new ≡ (recovered plan.old scratch.old image.now).scratch) }
{
    let answer = recover::recover(image, plan, scratch);
    let number = errno::number(&answer);
    let rows = answer.unwrap_or(0);
    joined(number, rows, 0, 0)
}
