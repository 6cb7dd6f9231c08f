//! Marking a rules text and a card file.
#![tactic(auto)]

ghost use Rattle.std.specs.Prelude.{◌≡◌, ◌-◌, ◌^◌, min, length};
ghost use Rattle.rules.specs.Laws.{game_of};
ghost use Rattle.rules.specs.Shown.{view};
ghost use Rattle.records.specs.Raw.{model};
ghost use Rattle.marking.specs.Checks.{checks};
ghost use Rattle.marking.specs.Verdicts.{verdict_named};
ghost use Rattle.marker.specs.Marks.{accepted_as, marks_card, marks_file, marks_text};

use card::file::FileSource;
use card::source::CardSource;
use formulas::Formula;
use index::Slot;
use marking::check::check;
use marking::verdict::{Marked, Verdict};
use names::Name;
use outcome::{Accepted, Outcome};
use rested::key::FormulaKey;
use rules::read::read;
use rules::specification::Specification;

/// A count of an accepted card as 16 bits; the limits are far below.
fn small(count: usize) -> u16
    ensures { result ≡ min count 65535 }
{
    count.min(65_535) as u16
}

/// An accepted card with so many nodes and moves.
fn accepted(marked: Marked, nodes: usize, moves: usize) -> Accepted
    ensures { result ≡ accepted_as (verdict_named marked.verdict) (min marked.depth 65535) (min nodes 65535) (min moves 65535) }
{
    match marked.verdict {
        Verdict::Realizable => Accepted::Realizable {
            nodes: small(nodes),
            moves: small(moves),
        },
        Verdict::Unrealizable => Accepted::Unrealizable {
            nodes: small(nodes),
            moves: small(moves),
            depth: small(marked.depth),
        },
    }
}

/// Marks a card from any source. The slots, at least 2,048, are memory for an index of the card's formulas.
pub fn mark_card<S: CardSource>(
    specification: &Specification,
    source: &S,
    records: &mut [Slot<FormulaKey>],
) -> Outcome
    ensures { result ≡ marks_card (length records.old) (game_of (view specification.now)) (S.card source.now) }
{
    let marked = check(specification, source, records)?;
    Ok(accepted(marked, source.node_count(), source.move_count()))
}

/// Marks the card in the bytes of a card file.
pub fn mark_file(
    specification: &Specification,
    bytes: &[u8],
    records: &mut [Slot<FormulaKey>],
) -> Outcome
    ensures { result ≡ marks_file (length records.old) (game_of (view specification.now)) bytes.now }
{
    let source = FileSource::open(bytes)?;
    mark_card(specification, &source, records)
}

/// Reads a rules text, which is judged first, and marks the card in the bytes of a card file. The three arrays of slots, at least 2,048 each,
/// are memory for indexes of the text's names, of its formulas and of the card's formulas.
pub fn mark(
    text: &[u8],
    bytes: &[u8],
    names: &mut [Slot<Name>],
    formulas: &mut [Slot<Formula>],
    records: &mut [Slot<FormulaKey>],
) -> Outcome
    ensures { result ≡ marks_text (length names.old) (length formulas.old) (length records.old) text.now bytes.now }
{
    let specification = read(text, names, formulas)?;
    mark_file(&specification, bytes, records)
}

#[cfg(test)]
mod tests;
