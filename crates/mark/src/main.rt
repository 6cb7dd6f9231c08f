//! Marks a card file for a rules text, and prints the verdict or the refusal as one line. The files are those that the first and the
//! second argument name, or `rules.txt` and `card.bin`; a file that cannot be read is empty.
#![tactic(auto)]

use mark_io::print_mark;
use std::{env, io};

fn main(rt: HostRuntime) -> io::Result<()> {
    match env::args(&rt) {
        Ok(mut words) => match words.nth(1) {
            Some(rules) => match words.next() {
                Some(card) => print_mark(&rt, rules.as_str(), card.as_str()),
                None => print_mark(&rt, rules.as_str(), "card.bin"),
            },
            None => print_mark(&rt, "rules.txt", "card.bin"),
        },
        Err(_) => print_mark(&rt, "", ""),
    }
}
