// A path and its components: slashes skipped, names delimited, a symlink's text spliced in.
ghost use Rattle.std.specs.Prelude.{◌≡◌, cond, ◌++◌, ◌+◌, ◌≤◌, length};
ghost use Rattle.layout.specs.Limits.{path_limit};
ghost use Rattle.paths.specs.Path.{slashes, until_slash, bare, absolute, is_dot, is_dot_dot};
ghost use Rattle.paths.specs.WorkingPath.{working_path};

use layout::limits;

// How many slashes a path begins with.
pub fn slashes(p: &[u8]) -> usize
    ensures { (result ≡ slashes p.now) × (result ≤ length p.now) }
{
    p.iter().position(|b| *b != b'/').unwrap_or(p.len())
}

// How many bytes stand ahead of its first slash.
pub fn name_bytes(p: &[u8]) -> usize
    ensures { (result ≡ until_slash p.now) × (result ≤ length p.now) }
{
    p.iter().position(|b| *b == b'/').unwrap_or(p.len())
}

// Whether it is nothing but slashes.
pub fn is_bare(p: &[u8]) -> bool
    ensures { result ≡ bare p.now }
{
    slashes(p) == p.len()
}

pub fn is_absolute(p: &[u8]) -> bool
    ensures { result ≡ absolute p.now }
{
    p.first() == Some(&b'/')
}

pub fn is_dot(name: &[u8]) -> bool
    ensures { result ≡ is_dot name.now }
{
    layout::bytes::same(name, b".")
}

pub fn is_dot_dot(name: &[u8]) -> bool
    ensures { result ≡ is_dot_dot name.now }
{
    layout::bytes::same(name, b"..")
}

// The working path made anew: a symlink's text, the unread rest, and zeros.
pub fn splice(text: &[u8], rest: &[u8]) -> [u8; limits::PATH_BYTES]
    requires { length text.now + length rest.now ≤ path_limit }
    ensures { result ≡ working_path (text.now ++ rest.now) }
{
    let mut path = [0u8; limits::PATH_BYTES];
    layout::bytes::copy(&mut path, 0, text);
    layout::bytes::copy(&mut path, text.len(), rest);
    path
}

// The directory that a text is read from: the root for an absolute one, else the one that holds its symlink.
pub fn start(text: &[u8], directory: usize) -> usize
    ensures { result ≡ cond (absolute text.now) 0 directory }
{
    if is_absolute(text) { 0 } else { directory }
}
