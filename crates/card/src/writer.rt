//! The writer of card files: any source to bytes in the caller's output.
ghost use Rattle.std.specs.Prelude.{◌≡◌, ◌+◌, ◌*◌, ◌≤◌, length, take, is_ok, IfOk, if◌then◌else◌, Ok};
ghost use Rattle.std.specs.List.{flat_map};
ghost use Rattle.card.specs.Limits.{Bounded};
ghost use Rattle.card.specs.Layout.{word_bytes, formula_bytes, node_bytes, move_bytes};
ghost use Rattle.card.specs.Trailer.{moves_from, read_file};
ghost use Rattle.card.specs.Written.{fields, byte_count, written, output_after, put_at};

use crate::counts::Counts;
use crate::entry::all_entries;
use crate::layout::{Stored, put};
use crate::limits::check_counts;
use crate::source::CardSource;
use faults::Buffer;
use faults::card::CardFault;
use records::{FormulaRecord, MoveRecord, NodeRecord};

/// The length of the file that the answered counts give, however large they are.
fn file_length<S: CardSource>(source: &S) -> u128
    ensures { result ≡ byte_count (S.card source.now) }
{
    10 * source.formula_count() as u128
        + 2 * source.label_count() as u128
        + 8 * source.node_count() as u128
        + 10 * source.move_count() as u128
        + 20
}

/// Writes the entries of a list of a card, one behind the other, into the output from a place on.
fn write_list<S: CardSource, E: Stored>(source: &S, output: &mut [u8], at: usize)
    requires { at + E.SIZE * length (E.listed (S.card source.now)) ≤ length output.old }
    ensures { output.new ≡ put_at output.old at (flat_map E.bytes_of (E.listed (S.card source.now))) }
{
    let mut end = at;
    for entry in all_entries::<S, E>(source) {
        entry.put(output, end);
        end += E::SIZE;
    }
}

/// The whole file of a card within its limits, into an output that has room for it: the answer is its length.
fn write_card<S: CardSource>(source: &S, output: &mut [u8]) -> usize
    requires { (Bounded (S.card source.now)) × (byte_count (S.card source.now) ≤ length output.old) }
    ensures size { result ≡ byte_count (S.card source.now) }
    ensures bytes { output.new ≡ output_after (S.card source.now) output.old }
{
    let counts = Counts {
        kind: source.kind(),
        formulas: source.formula_count() as u16,
        labels: source.label_count() as u16,
        nodes: source.node_count() as u16,
        moves: source.move_count() as u16,
    };
    let trailer_at = counts.moves_at() + 10 * counts.moves as usize;
    write_list::<S, FormulaRecord>(source, output, 0);
    write_list::<S, u16>(source, output, counts.labels_at());
    write_list::<S, NodeRecord>(source, output, counts.nodes_at());
    write_list::<S, MoveRecord>(source, output, counts.moves_at());
    put(output, trailer_at, &counts.to_bytes());
    trailer_at + 20
}

/// Writes the card of any source as a card file; the answer is the file's length. An output that is too short is refused first, then a count or
/// a kind outside its limits; entries are copied as they are. A refusal leaves the output as it was, and so does success the bytes behind the file.
pub fn write<S: CardSource>(source: &S, output: &mut [u8]) -> Result<usize, CardFault>
    ensures value { result ≡ written (S.card source.now) (length output.old) }
    ensures bytes { output.new ≡ (if is_ok result then output_after (S.card source.now) output.old else output.old) }
    ensures opens { IfOk result (λ n. read_file (take n output.new) ≡ Ok (S.card source.now)) }
{
    if file_length(source) > output.len() as u128 {
        return Err(CardFault::Short(Buffer::Output));
    }
    check_counts(source)?;
    Ok(write_card(source, output))
}
