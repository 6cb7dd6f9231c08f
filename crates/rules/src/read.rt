//! Reading a rules text.
ghost use Rattle.std.specs.Prelude.{◌≡◌, ◌≤◌, length};
ghost use Rattle.rules.specs.Laws.{KeepsMeaning, ReadsAsDerived, StatesGame};
ghost use Rattle.rules.specs.Read.{reads_with};
ghost use Rattle.rules.specs.Shown.{view_result};

use super::specification::Specification;
use faults::{Buffer, Fault, Reason, TextFault};
use formulas::Formula;
use index::{Slot, enough};
use names::Name;
use normal::normalize;
use parser::parse;

/// The number of the formula True, which the third part is.
const TRUE: u16 = 1;

/// Reads a text. The two arrays of slots, at least 2,048 each, are memory for an index of its names and for one of its formulas.
pub fn read(
    text: &[u8],
    names: &mut [Slot<Name>],
    formulas: &mut [Slot<Formula>],
) -> Result<Specification, Fault>
    ensures value { view_result result ≡ reads_with (length names.old) (length formulas.old) text.now }
    ensures derived { 2048 ≤ length names.old → 2048 ≤ length formulas.old → ReadsAsDerived text.now (view_result result) }
    ensures meaning { KeepsMeaning text.now (view_result result) }
    ensures game { StatesGame (view_result result) }
{
    if !enough(formulas) {
        return Err(Fault::Short(Buffer::Index));
    }
    // The large value stays where it is: `?` would fill and copy it once more for each text.
    let outcome = parse(text, names);
    let parsed = match &outcome {
        Ok(parsed) => parsed,
        Err(fault) => return Err(*fault),
    };
    let formulas = normalize(&parsed.syntax, formulas).map_err(|_| TextFault {
        reason: Reason::Formulas,
        place: text.len(),
    })?;
    Ok(Specification {
        names: parsed.names,
        formulas,
        third: TRUE,
    })
}
