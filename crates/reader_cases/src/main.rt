//! Prints how each of many texts reads. The file `cases.txt` names their files, one on each line.
#![tactic(auto)]

use reader_io::print_explanation;
use std::{fs, io};

fn main(rt: HostRuntime) -> io::Result<()> {
    let cases = fs::read_to_string(&rt, "cases.txt")?;
    for name in cases.lines() {
        println!(rt; "case {name}")?;
        print_explanation(&rt, name)?;
    }
    Ok(())
}
