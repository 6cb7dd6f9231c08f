//! The line of an outcome.
ghost use Rattle.std.specs.Prelude.{◌≡◌, ◌≤◌, ◌++◌, length, codes, decimal};
ghost use Rattle.outcome.specs.declared.Refused.TheVariants.{Text, Card};
ghost use Rattle.outcome.specs.Lines.{accepted_line, outcome_line, refused_line};

use crate::{Accepted, Outcome, Refused};
use lines::Line;

/// The counts of nodes and of moves, after the word for the verdict.
fn counts(verdict: &[u8], nodes: u16, moves: u16) -> Line
    requires { length verdict.now ≤ 20 }
    ensures text { result ≡ verdict.now ++ decimal nodes ++ codes " moves " ++ decimal moves }
    ensures short { length result ≤ 37 }
{
    Line::new()
        .with_bytes(verdict)
        .with_number(nodes as usize)
        .with_bytes(b" moves ")
        .with_number(moves as usize)
}

/// The line of an accepted card.
fn accepted_line(accepted: Accepted) -> Line
    ensures value { result ≡ accepted_line accepted }
    ensures bound { length result ≤ 64 }
{
    match accepted {
        Accepted::Realizable { nodes, moves } => {
            counts(b"realizable nodes ", nodes, moves).with_bytes(b"\n")
        }
        Accepted::Unrealizable {
            nodes,
            moves,
            depth,
        } => counts(b"unrealizable nodes ", nodes, moves)
            .with_bytes(b" depth ")
            .with_number(depth as usize)
            .with_bytes(b"\n"),
    }
}

// A text alone is explained by a line without the line end, in a crate that knows no cards; so this is not the `refused_line` there.
/// The line of a refused text.
fn text_refused(number: u8, byte: usize) -> Line
    ensures value { result ≡ refused_line (Text number byte) }
    ensures bound { length result ≤ 64 }
{
    Line::new()
        .with_bytes(b"refused ")
        .with_number(number as usize)
        .with_bytes(b" byte ")
        .with_number(byte)
        .with_bytes(b"\n")
}

/// The line of a refused card.
fn card_refused(number: u8, list: u8, place: usize) -> Line
    ensures value { result ≡ refused_line (Card number list place) }
    ensures bound { length result ≤ 64 }
{
    Line::new()
        .with_bytes(b"refused ")
        .with_number(number as usize)
        .with_bytes(b" list ")
        .with_number(list as usize)
        .with_bytes(b" number ")
        .with_number(place)
        .with_bytes(b"\n")
}

/// The line of a refused text or card.
fn refused_line(refused: Refused) -> Line
    ensures value { result ≡ refused_line refused }
    ensures bound { length result ≤ 64 }
{
    match refused {
        Refused::Text { number, byte } => text_refused(number, byte),
        Refused::Card {
            number,
            list,
            place,
        } => card_refused(number, list, place),
    }
}

/// The line that shows an outcome, its line end included.
pub fn line(outcome: Outcome) -> Line
    ensures value { result ≡ outcome_line outcome }
    ensures bound { length result ≤ 64 }
{
    match outcome {
        Ok(accepted) => accepted_line(accepted),
        Err(refused) => refused_line(refused),
    }
}
