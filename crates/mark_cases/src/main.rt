//! Marks many pairs of a rules text and a card file. The file `cases.txt` names them, a pair on each line.
#![tactic(auto)]

use mark_io::print_mark;
use std::{fs, io};

fn main(rt: HostRuntime) -> io::Result<()> {
    let cases = fs::read_to_string(&rt, "cases.txt")?;
    for pair in cases.lines() {
        let Some((rules, card)) = pair.split_once(' ') else {
            continue;
        };
        println!(rt; "case {rules} {card}")?;
        print_mark(&rt, rules, card)?;
    }
    Ok(())
}
