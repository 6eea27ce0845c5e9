// Portable names: those that every system takes.
ghost use Rattle.std.specs.Prelude.{◌≡◌};
ghost use Rattle.paths.specs.Portable.{is_portable_byte, is_portable};

#[tactic(auto, unfolding(crate::specs::Portable::is_portable_byte))]
fn is_portable_byte(b: u8) -> bool
    ensures { result ≡ is_portable_byte b }
{
    matches!(b, b'A'..=b'Z' | b'a'..=b'z' | b'0'..=b'9' | b'.' | b'_' | b'-')
}

// Whether every byte of a name is portable.
pub fn is_portable(name: &[u8]) -> bool
    ensures { result ≡ is_portable name.now }
{
    name.iter().all(|b| is_portable_byte(*b))
}
