// Prints the library's answers to the stored cases. docs/VECTORS.md has the form of the files.
#![tactic(auto)]

use buffers::Buffers;
use fault::Fault;
use item::Item;
use std::fs::File;
use std::io;
use std::io::Write;
use streams::Streams;

mod buffers;
mod case;
mod check;
mod checksum;
mod compares;
mod fault;
mod image;
mod item;
mod land;
mod plans;
mod renames;
mod repairs;
mod request;
mod streams;
mod walks;

// The files, in the order of their answers.
const FILES: [&str; 12] = [
    "check", "land", "walk", "rename", "repair", "groups", "sticky", "links", "portable",
    "compare", "crowded", "exchange",
];

// Nothing says that a file ends, so a count of its items ends the loop.
const MOST_ITEMS: usize = 1000000;

// Answers the cases of a file.
fn all(streams: &mut Streams, buffers: &mut Buffers) -> Result<(), Fault> {
    for _ in 0..MOST_ITEMS {
        let Some(tag) = streams.tag()? else {
            return Ok(());
        };
        match Item::try_from(tag)? {
            Item::Base => image::read_base(streams, &mut buffers.base)?,
            Item::Compare => compares::case(streams)?,
            Item::Case(job) => case::case(streams, job, buffers)?,
        }
    }
    Err(Fault::Wrong("the file has too many items"))
}

// Answers the cases of the file of that name. What is wrong with it is told; an error is only what cannot be written.
fn run(rt: &HostRuntime, path: &str) -> io::Result<()> {
    let mut errors = rt.stderr();
    let file = match File::open(rt, path) {
        Ok(file) => file,
        Err(e) => return writeln!(errors, "vectors: cannot open {path}: {e}"),
    };
    let mut streams = Streams {
        file,
        lines: rt.stdout(),
    };
    let mut buffers = Buffers::new();
    match all(&mut streams, &mut buffers) {
        Ok(()) => Ok(()),
        Err(Fault::Output(e)) => Err(e),
        Err(fault) => {
            writeln!(errors, "vectors: {fault}")?;
            writeln!(errors, "vectors: stopped in the file {path}")
        }
    }
}

fn main(rt: HostRuntime) -> io::Result<()> {
    for path in FILES {
        run(&rt, path)?;
    }
    Ok(())
}
