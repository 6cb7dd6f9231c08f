//! The worked cards from sheets, and a card that a source answers by formula.
ghost use Rattle.std.specs.Prelude.{[], ◌∷◌};

use super::{mark, mark_card};
use card::sheet::Sheet;
use card::source::CardSource;
use faults::card::{CardFault, CardList, CardReason};
use faults::{Buffer, Fault};
use formulas::Formula;
use index::{SLOTS, Slot};
use names::Name;
use outcome::{Accepted, Outcome, Refused};
use records::{FormulaRecord, MoveRecord, NodeRecord};
use rested::key::FormulaKey;
use rules::read::read;

const END: u16 = 65_535;

const P: u8 = 0;

const S: u8 = 16;

const NEVER: &[u8] =
    b"Initial Formula\nTrue\nSafety Formula\nFalse\nEnvironment Global Constraints\nTrue\n";

const COPY: &[u8] =
    b"Initial Formula\nTrue\nSafety Formula\ns <-> p_e\nEnvironment Global Constraints\nTrue\n";

const FORESEE: &[u8] =
    b"Initial Formula\nTrue\nSafety Formula\ns <-> X p_e\nEnvironment Global Constraints\nTrue\n";

const COPY_NEXT: &[u8] =
    b"Initial Formula\nTrue\nSafety Formula\nX s <-> X p_e\nEnvironment Global Constraints\nTrue\n";

const HOLD: &[u8] =
    b"Initial Formula\nTrue\nSafety Formula\np_e -> G[0,99] s\nEnvironment Global Constraints\nTrue\n";

/// What marking the card of a source for a text answers, with no more said of it than its type.
fn outcome<C: CardSource>(text: &[u8], source: &C) -> Outcome {
    outcome_with(&mut [Slot::free(); SLOTS], text, source)
}

/// The same with this index of the card's formulas.
fn outcome_with<C: CardSource>(
    records: &mut [Slot<FormulaKey>],
    text: &[u8],
    source: &C,
) -> Outcome {
    let mut names = [Slot::free(); SLOTS];
    let mut formulas = [Slot::free(); SLOTS];
    let specification = read(text, &mut names, &mut formulas)?;
    mark_card(&specification, source, records)
}

/// What marking a card file answers, with no more said of it than its type.
fn file_outcome(names: &mut [Slot<Name>], formulas: &mut [Slot<Formula>], bytes: &[u8]) -> Outcome {
    mark(NEVER, bytes, names, formulas, &mut [Slot::free(); SLOTS])
}

fn refused(reason: CardReason, list: CardList, place: usize) -> Outcome {
    Err(Refused::from(CardFault::Refused {
        reason,
        list,
        place,
    }))
}

fn leaf(kind: u8, variable: u8) -> FormulaRecord {
    FormulaRecord {
        kind,
        variable,
        a: 0,
        b: 0,
        n: 0,
        m: 0,
    }
}

fn pair(kind: u8, a: u16, b: u16) -> FormulaRecord {
    FormulaRecord {
        a,
        b,
        ..leaf(kind, 0)
    }
}

fn timed(kind: u8, n: u16, m: u16, a: u16) -> FormulaRecord {
    FormulaRecord {
        a,
        n,
        m,
        ..leaf(kind, 0)
    }
}

fn node(first_label: u16, label_count: u16, first_move: u16, move_count: u16) -> NodeRecord {
    NodeRecord {
        first_label,
        label_count,
        first_move,
        move_count,
    }
}

/// A move that fixes the input and the reply, as far as they are given.
fn step(input: Option<u16>, reply: Option<u16>, target: u16) -> MoveRecord {
    MoveRecord {
        env_mask: u16::from(input.is_some()),
        env_values: input.unwrap_or(0),
        sys_mask: u16::from(reply.is_some()),
        sys_values: reply.unwrap_or(0),
        target,
    }
}

#[test]
fn nothing_keeps_false(rt: HostRuntime) {
    let sheet = Sheet {
        kind: 2,
        formulas: &[leaf(0, 0), leaf(1, 0)],
        labels: &[],
        nodes: &[node(0, 0, 0, 1)],
        moves: &[step(None, None, END)],
    };
    let (nodes, moves, depth) = (1, 1, 1);
    assert_eq!(rt;
        outcome(NEVER, &sheet),
        Ok(Accepted::Unrealizable {
            nodes,
            moves,
            depth
        })
    );
}

#[test]
fn copying_the_input(rt: HostRuntime) {
    let sheet = Sheet {
        kind: 1,
        formulas: &[
            leaf(0, 0),
            leaf(1, 0),
            leaf(2, S),
            leaf(3, S),
            leaf(2, P),
            leaf(3, P),
            pair(4, 2, 4),
            pair(4, 3, 5),
            pair(5, 6, 7),
        ],
        labels: &[],
        nodes: &[node(0, 0, 0, 2)],
        moves: &[step(Some(0), Some(0), 0), step(Some(1), Some(1), 0)],
    };
    let (nodes, moves) = (1, 2);
    assert_eq!(rt;
        outcome(COPY, &sheet),
        Ok(Accepted::Realizable { nodes, moves })
    );
}

#[test]
fn nobody_foresees_the_input(rt: HostRuntime) {
    let formulas = [
        leaf(0, 0),
        leaf(1, 0),
        leaf(2, S),
        leaf(3, S),
        leaf(2, P),
        leaf(3, P),
        timed(6, 1, 0, 4),
        timed(6, 1, 0, 5),
        pair(4, 2, 6),
        pair(4, 3, 7),
        pair(5, 8, 9),
        pair(5, 4, 5),
    ];
    let sheet = Sheet {
        kind: 2,
        formulas: &formulas,
        labels: &[4, 5],
        nodes: &[node(0, 0, 0, 2), node(0, 1, 2, 1), node(1, 1, 3, 1)],
        moves: &[
            step(None, Some(1), 1),
            step(None, Some(0), 2),
            step(Some(0), None, END),
            step(Some(1), None, END),
        ],
    };
    let (nodes, moves, depth) = (3, 4, 2);
    assert_eq!(rt;
        outcome(FORESEE, &sheet),
        Ok(Accepted::Unrealizable {
            nodes,
            moves,
            depth
        })
    );
    let missing = Sheet {
        formulas: &formulas[0..11],
        ..sheet
    };
    assert_eq!(rt;
        outcome(FORESEE, &missing),
        refused(CardReason::Missing, CardList::Moves, 2)
    );
}

#[test]
fn copying_the_next_input(rt: HostRuntime) {
    let sheet = Sheet {
        kind: 1,
        formulas: &[
            leaf(0, 0),
            leaf(1, 0),
            leaf(2, S),
            leaf(3, S),
            leaf(2, P),
            leaf(3, P),
            timed(6, 1, 0, 2),
            timed(6, 1, 0, 4),
            timed(6, 1, 0, 3),
            timed(6, 1, 0, 5),
            pair(4, 6, 7),
            pair(4, 8, 9),
            pair(5, 10, 11),
            pair(4, 2, 4),
            pair(4, 3, 5),
            pair(5, 13, 14),
        ],
        labels: &[15],
        nodes: &[node(0, 0, 0, 1), node(0, 1, 1, 2)],
        moves: &[
            step(None, None, 1),
            step(Some(1), Some(1), 1),
            step(Some(0), Some(0), 1),
        ],
    };
    let (nodes, moves) = (2, 3);
    assert_eq!(rt;
        outcome(COPY_NEXT, &sheet),
        Ok(Accepted::Realizable { nodes, moves })
    );
    let split = Sheet {
        labels: &[13],
        ..sheet
    };
    assert_eq!(rt;
        outcome(COPY_NEXT, &split),
        refused(CardReason::Step, CardList::Moves, 2)
    );
}

#[test]
fn holding_for_a_hundred_steps(rt: HostRuntime) {
    let sheet = Sheet {
        kind: 1,
        formulas: &[
            leaf(0, 0),
            leaf(1, 0),
            leaf(2, S),
            leaf(3, P),
            timed(7, 0, 99, 2),
            pair(5, 3, 4),
            timed(7, 0, 98, 2),
            timed(7, 0, 97, 2),
        ],
        labels: &[6],
        nodes: &[node(0, 0, 0, 2), node(0, 1, 2, 1)],
        moves: &[
            step(Some(0), None, 0),
            step(Some(1), Some(1), 1),
            step(None, Some(1), 1),
        ],
    };
    let (nodes, moves) = (2, 3);
    assert_eq!(rt;
        outcome(HOLD, &sheet),
        Ok(Accepted::Realizable { nodes, moves })
    );
    let short = Sheet {
        labels: &[7],
        ..sheet
    };
    assert_eq!(rt;
        outcome(HOLD, &short),
        refused(CardReason::Step, CardList::Moves, 1)
    );
}

/// Two nodes, the first leading to the second and the second to the end, each entry computed from its number.
#[derive(Clone, Copy)]
struct TwoNodes;

impl CardSource for TwoNodes {
    ghost card = { λ _. record {
      kind = 2;
      formulas = record { kind = 0; variable = 0; a = 0; b = 0; n = 0; m = 0 } ∷ record { kind = 1; variable = 0; a = 0; b = 0; n = 0; m = 0 } ∷ [];
      labels = [];
      nodes = record { first_label = 0; label_count = 0; first_move = 0; move_count = 1 } ∷ record { first_label = 0; label_count = 0; first_move = 1; move_count = 1 } ∷ [];
      moves = record { env_mask = 0; env_values = 0; sys_mask = 0; sys_values = 0; target = 1 } ∷ record { env_mask = 0; env_values = 0; sys_mask = 0; sys_values = 0; target = 65535 } ∷ [];
    } };

    fn kind(&self) -> u16 {
        2
    }

    fn formula_count(&self) -> usize {
        2
    }

    fn label_count(&self) -> usize {
        0
    }

    fn node_count(&self) -> usize {
        2
    }

    fn move_count(&self) -> usize {
        2
    }

    fn formula_at(&self, i: usize) -> Option<FormulaRecord> {
        match i {
            0 | 1 => Some(FormulaRecord {
                kind: i as u8,
                variable: 0,
                a: 0,
                b: 0,
                n: 0,
                m: 0,
            }),
            _ => None,
        }
    }

    fn label_at(&self, _i: usize) -> Option<u16> {
        None
    }

    fn node_at(&self, i: usize) -> Option<NodeRecord> {
        match i {
            0 | 1 => Some(NodeRecord {
                first_label: 0,
                label_count: 0,
                first_move: i as u16,
                move_count: 1,
            }),
            _ => None,
        }
    }

    fn move_at(&self, i: usize) -> Option<MoveRecord> {
        match i {
            0 | 1 => Some(MoveRecord {
                env_mask: 0,
                env_values: 0,
                sys_mask: 0,
                sys_values: 0,
                target: if i == 0 { 1 } else { 65_535 },
            }),
            _ => None,
        }
    }
}

#[test]
fn source_by_formula_is_marked(rt: HostRuntime) {
    let (nodes, moves, depth) = (2, 2, 2);
    assert_eq!(rt;
        outcome(NEVER, &TwoNodes),
        Ok(Accepted::Unrealizable {
            nodes,
            moves,
            depth
        })
    );
    assert_eq!(rt;
        outcome(COPY, &TwoNodes),
        refused(CardReason::Missing, CardList::Formulas, 0)
    );
}

/// The index of the card's formulas is judged before the card, and either index of the text before the text.
#[test]
fn index_a_slot_too_short(rt: HostRuntime) {
    let (nodes, moves, depth) = (2, 2, 2);
    let accepted = Ok(Accepted::Unrealizable {
        nodes,
        moves,
        depth,
    });
    let card_refused = Err(Refused::from(CardFault::Short(Buffer::Index)));
    assert_eq!(rt;
        outcome_with(&mut [Slot::free(); 2048], NEVER, &TwoNodes),
        accepted
    );
    assert_eq!(rt;
        outcome_with(&mut [Slot::free(); 2047], NEVER, &TwoNodes),
        card_refused
    );
    assert_eq!(rt;
        outcome_with(&mut [Slot::free(); 2047], COPY, &TwoNodes),
        card_refused
    );
    let text_refused = Err(Refused::from(Fault::Short(Buffer::Index)));
    let no_file = refused(CardReason::Count, CardList::Trailer, 10);
    assert_eq!(rt;
        file_outcome(&mut [Slot::free(); 2048], &mut [Slot::free(); 2048], b""),
        no_file
    );
    assert_eq!(rt;
        file_outcome(&mut [Slot::free(); 2047], &mut [Slot::free(); 2048], b""),
        text_refused
    );
    assert_eq!(rt;
        file_outcome(&mut [Slot::free(); 2048], &mut [Slot::free(); 2047], b""),
        text_refused
    );
}
