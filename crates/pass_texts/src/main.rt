// Lists one text after the other on standard output: a long one, one that is refused in the middle, one that is refused at its end, one with a line that is
// longer than the buffer, an empty one, and two that cannot be read (a directory, and a file that is open for writing only). `reference/texts` made them.
#![tactic(auto)]

use std::fs::{File, OpenOptions};
use std::io;
use std::io::Read;
use std::rt::Files;
use std::time::Clock;

fn list_text<R: Read, S: Print + Eprint + Clock>(rt: &S, input: &mut R) {
    pass_listing::list(rt, input, &mut io::writer(rt));
}

// The list of what is not open for reading.
fn list_unread<S: Files + Print + Eprint + Clock>(rt: &S) {
    if let Ok(mut unread) = OpenOptions::new().write(true).open(rt, "/dev/null") {
        list_text(rt, &mut unread);
    }
}

fn list_file<S: Files + Print + Eprint + Clock>(rt: &S, name: &str) {
    match File::open(rt, name) {
        Ok(mut input) => list_text(rt, &mut input),
        Err(_) => list_unread(rt),
    }
}

fn main(rt: HostRuntime) {
    for name in ["long", "middle", "end", "overlong", "empty", "/"] {
        list_file(&rt, name);
    }
    list_unread(&rt);
}
