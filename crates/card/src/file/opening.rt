//! Opening a card file: its trailer is judged, field by field.
ghost use Rattle.std.specs.Prelude.{◌≡◌, ◌<◌, Ok, Err, MatchResult};
ghost use Rattle.card.specs.Trailer.{field, refused_field, wrong_field, read_file};
ghost use Rattle.card.specs.Counts.{counts_in};
ghost use Rattle.card.specs.contracts.file.FileSourceCardSource.TheImpl.{ghosts as file_ghosts};

use crate::counts::Counts;
use crate::file::FileSource;
use crate::layout::word_at;
use crate::limits::{formulas_right, kind_right, labels_right, moves_right, nodes_right, require};
use faults::card::CardFault;

/// Field i of the trailer, which is the last twenty bytes.
fn read_field(bytes: &[u8], i: usize) -> u16
    requires { i < 10 }
    ensures { result ≡ field bytes.now i }
{
    word_at(bytes, bytes.len().saturating_sub(20) + 2 * i)
}

/// The kind and the counts by the trailer.
fn read_counts(bytes: &[u8]) -> Counts
    ensures { result ≡ counts_in bytes.now }
{
    Counts {
        kind: read_field(bytes, 8),
        formulas: read_field(bytes, 1),
        labels: read_field(bytes, 3),
        nodes: read_field(bytes, 5),
        moves: read_field(bytes, 7),
    }
}

/// Refuses a file for the first wrong field of its trailer, or as too short for one (10), or as longer than any card's (11).
fn check_trailer(bytes: &[u8], counts: Counts) -> Result<(), CardFault>
    requires { counts ≡ counts_in bytes.now }
    ensures { result ≡ refused_field (wrong_field bytes.now) }
{
    require(bytes.len() >= 20, 10)?;
    require(bytes.len() <= 47_124, 11)?;
    require(read_field(bytes, 0) == 0, 0)?;
    require(formulas_right(counts.formulas as usize), 1)?;
    require(read_field(bytes, 2) as usize == counts.labels_at(), 2)?;
    require(labels_right(counts.labels as usize), 3)?;
    require(read_field(bytes, 4) as usize == counts.nodes_at(), 4)?;
    require(nodes_right(counts.nodes as usize), 5)?;
    require(read_field(bytes, 6) as usize == counts.moves_at(), 6)?;
    require(moves_right(counts.moves as usize), 7)?;
    require(
        counts.moves_at() + 10 * counts.moves as usize + 20 == bytes.len(),
        7,
    )?;
    require(kind_right(counts.kind), 8)?;
    require(read_field(bytes, 9) == 20, 9)
}

impl<'a> FileSource<'a> {
    /// The source over a card file, or the refusal for the first wrong field of its trailer.
    pub fn open(bytes: &'a [u8]) -> Result<FileSource<'a>, CardFault>
        ensures { MatchResult result (λ s. read_file bytes.now ≡ Ok (file_ghosts.card s)) (λ e. read_file bytes.now ≡ Err e) }
    {
        let counts = read_counts(bytes);
        check_trailer(bytes, counts)?;
        Ok(FileSource { bytes, counts })
    }
}
