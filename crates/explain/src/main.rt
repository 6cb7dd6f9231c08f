//! Prints how a rules text reads: the variables, the formulas, and which of them are the initial and the safety formula; or why
//! and where the text is refused. The text is the file that the first argument names, or `rules.txt`. A name that cannot be read is
//! that of no file, and the text is then empty.
#![tactic(auto)]

use reader_io::print_explanation;
use std::{env, io};

fn main(rt: HostRuntime) -> io::Result<()> {
    match env::args(&rt) {
        Ok(mut words) => match words.nth(1) {
            Some(name) => print_explanation(&rt, name.as_str()),
            None => print_explanation(&rt, "rules.txt"),
        },
        Err(_) => print_explanation(&rt, ""),
    }
}
