//! Reads a rules text by recursive descent.
#![tactic(auto)]

ghost use Rattle.std.specs.Prelude.{◌≤◌, [], length};
ghost use Rattle.index.specs.Keyed.{Indexed};
ghost use Rattle.names.specs.Words.{name_code};
ghost use Rattle.grammar.specs.Sections.{form_of};
ghost use Rattle.parser.specs.Parsing.{Forms, Freed, Parses};

mod declare;
mod descent;
mod leaves;
mod lines;
pub mod parsed;
mod reader;
mod sections;
pub mod table;

use faults::{Buffer, Fault, Reason, TextFault};
use index::{Slot, clear, enough};
use names::Name;
use parsed::Parsed;
use reader::Reader;

/// Reads a text with an index that holds no names.
fn read(text: &[u8], slots: &mut [Slot<Name>]) -> Result<Parsed, TextFault>
    requires { (Indexed name_code slots.old []) × (2048 ≤ length slots.old) }
    ensures { Forms (form_of text.now) result }
{
    if text.len() > 1024 {
        return Err(TextFault {
            reason: Reason::TooLong,
            place: 1024,
        });
    }
    let mut reader = Reader::new();
    let roots = reader.sections(text, slots)?;
    Ok(reader.finish(roots))
}

/// Parses a text; `slots` is memory for an index of its names, at least 2,048 slots, which are free afterwards.
pub fn parse(text: &[u8], slots: &mut [Slot<Name>]) -> Result<Parsed, Fault>
    ensures value { Parses text.now (length slots.old) result }
    ensures slots { Freed slots.old slots.new }
{
    if !enough(slots) {
        return Err(Fault::Short(Buffer::Index));
    }
    clear(slots);
    let outcome = read(text, slots);
    clear(slots);
    // By `map_err` or a `match` the large value would be filled and copied once more for each text.
    Ok(outcome?)
}

#[cfg(test)]
mod tests {
    use super::*;
    use index::Entry;
    use std::test::Fail;

    // A slot that holds a name from before.
    const SLOT: Slot<Name> = Slot {
        held: Some(Entry {
            key: Name {
                bytes: [0; 15],
                length: 0,
            },
            number: 0,
        }),
    };

    /// The number and the place of the refusal.
    fn refusal(text: &[u8], slots: &mut [Slot<Name>]) -> Option<(u8, usize)> {
        parse(text, slots)
            .err()
            .map(|fault| (fault.number(), fault.place()))
    }

    /// `open` appears first, so it is the first variable of the system; each line is a part, and the two are joined.
    #[test]
    fn names_and_nodes(rt: HostRuntime) -> Result<(), Fail> {
        let text =
            b"Initial Formula\n-open\n\nSafety Formula\nticket_e -> F[0,3] open\n-ticket_e -> X -open\nEnvironment Global Constraints\nTrue";
        let mut slots = [SLOT; 2048];
        let Ok(parsed) = parse(text, &mut slots) else {
            assert!(rt; false);
            return Ok(());
        };
        assert_eq!(rt; parsed.names.count, 2);
        let [first, second, ..] = parsed.names.variables;
        assert_eq!(rt; first, 16);
        assert_eq!(rt; second, 0);
        assert_eq!(rt; parsed.syntax.count, 13);
        assert_eq!(rt; parsed.syntax.initial, 1);
        assert_eq!(rt; parsed.syntax.safety, 12);
        Ok(())
    }

    /// A formula too many, a variable too many, a text that ends early, and an index that is too short.
    #[test]
    fn refusals(rt: HostRuntime) {
        let mut slots = [SLOT; 2048];
        let place = refusal(b"Initial Formula\na b\n", &mut slots).map(|fault| fault.1);
        assert_eq!(rt; place, Some(18));
        let many =
            b"Initial Formula\na & b & c & d & e & f & g & h & i & j & k & l & m & n & o & p & q\n";
        assert_eq!(rt; refusal(many, &mut slots), Some((5, 80)));
        let number = refusal(b"Initial Formula\na\n", &mut slots).map(|fault| fault.0);
        assert_eq!(rt; number, Some(3));
        let mut few = [SLOT; 2047];
        let number = refusal(b"", &mut few).map(|fault| fault.0);
        assert_eq!(rt; number, Some(19));
    }
}
