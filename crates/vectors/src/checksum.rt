// The checksum that lines have in place of bytes.
const MODULUS: u64 = 4294967291;

// The checksum of what it was made of so far, and one byte more.
fn next(sum: u32, byte: u8) -> u32 {
    ((31 * u64::from(sum) + u64::from(byte) + 1) % MODULUS) as u32
}

pub fn checksum(bytes: &[u8]) -> u32 {
    bytes.iter().fold(0, |sum, byte| next(sum, *byte))
}
