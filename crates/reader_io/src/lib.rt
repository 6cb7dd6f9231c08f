//! Reading a file as a rules text, and printing how it was read.
#![tactic(auto)]

use explanation::line;
use faults::Fault;
use files::read_or_empty;
use index::{SLOTS, Slot};
use lines::Line;
use rules::read::read;
use rules::specification::Specification;
use std::io;
use std::io::Write;

/// What a text reads as, with as many slots as reading asks for.
fn read_text(text: &[u8]) -> Result<Specification, Fault> {
    let mut names = [Slot::free(); SLOTS];
    let mut formulas = [Slot::free(); SLOTS];
    read(text, &mut names, &mut formulas)
}

/// The line and a line end, to the standard output.
fn print_line(rt: &HostRuntime, line: &Line) -> io::Result<()> {
    let mut out = rt.stdout();
    out.write_all(line.as_bytes())?;
    out.write_all(b"\n")
}

/// Every line of the explanation, in order.
fn print_lines(rt: &HostRuntime, reading: &Result<Specification, Fault>) -> io::Result<()> {
    for shown in (0..usize::MAX).map_while(|n| line(reading, n)) {
        print_line(rt, &shown)?;
    }
    Ok(())
}

/// Prints how the text of a file reads; a file that cannot be read is an empty text.
pub fn print_explanation(rt: &HostRuntime, path: &str) -> io::Result<()> {
    let text = read_or_empty(rt, path);
    print_lines(rt, &read_text(&text))
}
