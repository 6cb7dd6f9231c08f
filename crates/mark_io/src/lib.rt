//! Reading two files as a rules text and a card, and printing how the card is marked.
#![tactic(auto)]

use files::read_or_empty;
use index::{SLOTS, Slot};
use marker::mark;
use outcome::{Outcome, line};
use std::io;
use std::io::Write;

/// Marks a text and a card file, with as many slots as that asks for.
fn mark_bytes(text: &[u8], card: &[u8]) -> Outcome {
    let mut names = [Slot::free(); SLOTS];
    let mut formulas = [Slot::free(); SLOTS];
    let mut records = [Slot::free(); SLOTS];
    mark(text, card, &mut names, &mut formulas, &mut records)
}

/// Prints the line of a text and a card file; a file that cannot be read is empty.
pub fn print_mark(rt: &HostRuntime, rules: &str, card: &str) -> io::Result<()> {
    let text = read_or_empty(rt, rules);
    let bytes = read_or_empty(rt, card);
    let shown = line(mark_bytes(&text, &bytes));
    let mut out = rt.stdout();
    out.write_all(shown.as_bytes())
}
