//! Examining a text and a card.
ghost use Rattle.std.specs.Prelude.{◌≡◌, length};
ghost use Rattle.examination.specs.Examined.{enough_slots, examined_as, examines};

use crate::fault::MarkFault;
use card::source::CardSource;
use card::variables::Variables;
use faults::Buffer;
use faults::card::CardFault;
use formulas::Formula;
use index::{Slot, enough};
use marking::check::check;
use marking::verdict::Marked;
use names::Name;
use rested::key::FormulaKey;
use rules::read::read;

/// How many variables of each kind the text's specification has, and the verdict and the depth of the card.
#[derive(Clone, Copy)]
pub struct Examined {
    pub variables: Variables,
    pub marked: Marked,
}

/// Refuses an index that is too short; that is judged before anything else.
fn enough_slots(
    names: &[Slot<Name>],
    formulas: &[Slot<Formula>],
    records: &[Slot<FormulaKey>],
) -> Result<(), CardFault>
    ensures { result ≡ enough_slots (length names.now) (length formulas.now) (length records.now) }
{
    if enough(names) && enough(formulas) && enough(records) {
        Ok(())
    } else {
        Err(CardFault::Short(Buffer::Index))
    }
}

/// Reads the text, and checks the card for its specification. The three arrays of slots, at least 2,048 each, are memory for indexes of
/// the text's names, of its formulas and of the card's formulas; they are free to hold anything afterwards.
pub fn examine<S: CardSource>(
    text: &[u8],
    source: &S,
    names: &mut [Slot<Name>],
    formulas: &mut [Slot<Formula>],
    records: &mut [Slot<FormulaKey>],
) -> Result<Examined, MarkFault>
    ensures { examined_as result ≡ examines (length names.old) (length formulas.old) (length records.old) text.now (S.card source.now) }
{
    enough_slots(names, formulas, records)?;
    let specification = read(text, names, formulas)?;
    let marked = check(&specification, source, records)?;
    // Two calls, whose contracts say the two fields; a function for both would say the same once more.
    Ok(Examined {
        variables: Variables {
            environment: specification.environment_count(),
            system: specification.system_count(),
        },
        marked,
    })
}
