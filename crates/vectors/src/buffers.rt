// The buffers that the cases of a file are made in, each with room for the longest.
use crate::fault::Fault;
use crate::streams::Streams;

pub const BASE_BYTES: usize = 53448;

const IMAGE_BYTES: usize = 131072;

const PLAN_BYTES: usize = 1024;

#[derive(Drop)]
pub struct Buffers {
    pub base: [u8; BASE_BYTES],
    pub image: [u8; IMAGE_BYTES],
    pub plan: [u8; PLAN_BYTES],
    pub scratch: [u8; IMAGE_BYTES],
}

impl Buffers {
    pub fn new() -> Buffers {
        Buffers {
            base: [0; BASE_BYTES],
            image: [0; IMAGE_BYTES],
            plan: [0; PLAN_BYTES],
            scratch: [0; IMAGE_BYTES],
        }
    }
}

// Makes a buffer that a case lends to be written. No two bytes near each other are the same, so that each one that is written shows.
pub fn lend(streams: &mut Streams, buf: &mut [u8]) -> Result<(), Fault> {
    let [fill] = streams.bytes::<1>()?;
    for (i, byte) in buf.iter_mut().enumerate() {
        *byte = fill ^ (i % 256) as u8;
    }
    Ok(())
}
