// The cases of the walk: two paths of a request, resolved on a consistent image.
ghost use Rattle.component.specs.State.{Ranged};

use crate::checksum::checksum;
use crate::fault::Fault;
use crate::item::Job;
use crate::request;
use crate::request::Asked;
use crate::streams::Streams;
use component::state::{Found, Name};
use layout::errno::Errno;
use layout::image::Image;
use layout::tree::Tree;
use layout::{errno, limits};
use std::io::{Stdout, Write};

// Prints what a walk has found.
fn print_found(lines: &mut Stdout, found: Found, path: &[u8]) -> Result<(), Fault>
    requires { Ranged path.now found }
{
    let directory = found.directory;
    let slash = u8::from(found.slash);
    match found.name {
        Name::Existing { slot, inode } => {
            write!(lines, " {directory} {slot} {inode} {slash}")?;
            Ok(())
        }
        Name::Missing { from, to } => {
            let none = limits::ABSENT;
            let name = &path[from..to];
            let len = name.len();
            let sum = checksum(name);
            write!(lines, " {directory} {none} {none} {slash} {len} {sum}")?;
            Ok(())
        }
    }
}

// The tree that the bytes are, which have to be a consistent image.
fn consistent(bytes: &[u8]) -> Result<Tree<'_>, Fault> {
    match Image::read(bytes) {
        Some(image) if consistency::check(bytes).is_ok() => Ok(Tree { image }),
        _ => Err(Fault::Wrong("the image of a walk is not consistent")),
    }
}

// Reads the request, and prints the line of the case.
pub fn answer(streams: &mut Streams, image: &[u8]) -> Result<(), Fault> {
    let Asked { request, old, new } = request::read(streams, Job::Walk)?;
    let tree = consistent(image)?;
    let (old, new) = (old.bytes(), new.bytes());
    let lines = &mut streams.lines;
    if !paths::request::good(&tree.image, request, old, new) {
        let number = u8::from(Errno::WrongRequest);
        writeln!(lines, "{number} 0 0")?;
        return Ok(());
    }
    let walks = walk::both::both(&tree, request, old, new);
    let number = errno::number(&walks.new.found);
    let old = walks.old.steps;
    let new = walks.new.steps;
    write!(lines, "{number} {old} {new}")?;
    if let (Ok(first), Ok(second)) = (walks.old.found, walks.new.found) {
        print_found(lines, first, &walks.old.path)?;
        print_found(lines, second, &walks.new.path)?;
    }
    writeln!(lines)?;
    Ok(())
}
