// The cases that begin with an image: all but those of the check and of the walk go on with a plan, or a buffer for one.
use crate::buffers::{BASE_BYTES, Buffers};
use crate::fault::Fault;
use crate::item::Job;
use crate::streams::Streams;
use crate::{check, image, land, renames, repairs, walks};

// The length of the image. That of a walk is consistent, so that its own table of contents tells it.
fn image_length(streams: &mut Streams, job: Job, base: &[u8; BASE_BYTES]) -> Result<usize, Fault> {
    match job {
        Job::Walk => Ok(image::told_length(base)),
        _ => Ok(u32::from_le_bytes(streams.bytes()?) as usize),
    }
}

// Reads a case and prints its line.
pub fn case(streams: &mut Streams, job: Job, buffers: &mut Buffers) -> Result<(), Fault> {
    let image_len = image_length(streams, job, &buffers.base)?;
    let image = buffers
        .image
        .get_mut(..image_len)
        .ok_or(Fault::Wrong("an image is too long"))?;
    image::make(streams, &buffers.base, image)?;
    let plan_len = u16::from_le_bytes(streams.bytes_if(job.has_plan())?);
    let plan = buffers
        .plan
        .get_mut(..usize::from(plan_len))
        .ok_or(Fault::Wrong("a plan is too long"))?;
    match job {
        Job::Check => check::answer(streams, image),
        Job::Walk => walks::answer(streams, image),
        Job::Land => land::answer(streams, image, plan),
        Job::Repair => repairs::answer(streams, image, plan, &mut buffers.scratch),
        Job::Rename | Job::Groups | Job::Flags => renames::answer(streams, job, image, plan),
    }
}
