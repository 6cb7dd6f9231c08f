//! Cards from a sheet, a file and a source that answers by formula; every refusal of the file and of the writer.
ghost use Rattle.std.specs.Prelude.{[], ◌∷◌};

use crate::file::FileSource;
use crate::sheet::Sheet;
use crate::source::CardSource;
use crate::writer::write;
use faults::card::CardFault;
use records::{FormulaRecord, MoveRecord, NodeRecord};
use std::test::Fail;

const FALSE: FormulaRecord = FormulaRecord {
    kind: 0,
    variable: 0,
    a: 0,
    b: 0,
    n: 0,
    m: 0,
};

const TRUE: FormulaRecord = FormulaRecord {
    kind: 1,
    variable: 0,
    a: 0,
    b: 0,
    n: 0,
    m: 0,
};

const NODE: NodeRecord = NodeRecord {
    first_label: 0,
    label_count: 1,
    first_move: 0,
    move_count: 1,
};

const MOVE: MoveRecord = MoveRecord {
    env_mask: 1,
    env_values: 258,
    sys_mask: 3,
    sys_values: 4,
    target: 65_535,
};

// A closed card with one label, one node and one move, as a file: false, true, the label, the node, the move, the trailer.
const FILE: [u8; 60] =
    *b"\0\0\0\0\0\0\0\0\0\0\x01\0\0\0\0\0\0\0\0\0\0\0\0\0\x01\0\0\0\x01\0\x01\0\x02\x01\x03\0\x04\0\xff\xff\0\0\x02\0\x14\0\x01\0\x16\0\x01\0\x1e\0\x01\0\x02\0\x14\0";

// The place at which a file's trailer is refused, 99 if it is not.
fn refused_field(bytes: &[u8]) -> usize {
    match FileSource::open(bytes) {
        Ok(_) => 99,
        Err(fault) => fault.place(),
    }
}

// What the writer answers, with no more said of it than its type.
fn answer<S: CardSource>(source: &S, output: &mut [u8]) -> Result<usize, CardFault> {
    write(source, output)
}

// The number of a refusal of a sheet with sixty bytes of output, and its place, or 99 and the length; the output is left as it was.
fn refusal(sheet: &Sheet) -> (u8, usize, bool) {
    let mut output = [7u8; 60];
    match write(sheet, &mut output) {
        Ok(length) => (99, length, output[0] == 0),
        Err(fault) => (
            fault.number(),
            fault.place(),
            output[0] == 7 && output[59] == 7,
        ),
    }
}

// Two nodes that lead to each other by moves that fix nothing: each entry is computed from its number.
#[derive(Clone, Copy)]
struct Pair;

impl CardSource for Pair {
    ghost card = { λ _. record {
      kind = 1;
      formulas = record { kind = 0; variable = 0; a = 0; b = 0; n = 0; m = 0 } ∷ record { kind = 1; variable = 0; a = 0; b = 0; n = 0; m = 0 } ∷ [];
      labels = [];
      nodes = record { first_label = 0; label_count = 0; first_move = 0; move_count = 1 } ∷ record { first_label = 0; label_count = 0; first_move = 1; move_count = 1 } ∷ [];
      moves = record { env_mask = 0; env_values = 0; sys_mask = 0; sys_values = 0; target = 1 } ∷ record { env_mask = 0; env_values = 0; sys_mask = 0; sys_values = 0; target = 0 } ∷ [];
    } };

    fn kind(&self) -> u16 {
        1
    }

    fn formula_count(&self) -> usize {
        2
    }

    fn label_count(&self) -> usize {
        0
    }

    fn node_count(&self) -> usize {
        2
    }

    fn move_count(&self) -> usize {
        2
    }

    fn formula_at(&self, i: usize) -> Option<FormulaRecord> {
        match i {
            0 | 1 => Some(FormulaRecord {
                kind: i as u8,
                variable: 0,
                a: 0,
                b: 0,
                n: 0,
                m: 0,
            }),
            _ => None,
        }
    }

    fn label_at(&self, _i: usize) -> Option<u16> {
        None
    }

    fn node_at(&self, i: usize) -> Option<NodeRecord> {
        match i {
            0 | 1 => Some(NodeRecord {
                first_label: 0,
                label_count: 0,
                first_move: i as u16,
                move_count: 1,
            }),
            _ => None,
        }
    }

    fn move_at(&self, i: usize) -> Option<MoveRecord> {
        match i {
            0 | 1 => Some(MoveRecord {
                env_mask: 0,
                env_values: 0,
                sys_mask: 0,
                sys_values: 0,
                target: 1 - i as u16,
            }),
            _ => None,
        }
    }
}

#[test]
fn sheet_is_written_as_the_file(rt: HostRuntime) {
    let sheet = Sheet {
        kind: 2,
        formulas: &[FALSE, TRUE],
        labels: &[0],
        nodes: &[NODE],
        moves: &[MOVE],
    };
    let mut output = [7u8; 64];
    assert_eq!(rt; answer(&sheet, &mut output), Ok(60));
    assert!(rt; &output[0..60] == &FILE[0..60]);
    assert!(rt; output[60] == 7 && output[63] == 7);
}

#[test]
fn file_answers_its_card(rt: HostRuntime) -> Result<(), Fail> {
    let file = FileSource::open(&FILE)?;
    assert!(rt; file.kind() == 2 && file.formula_count() == 2 && file.label_count() == 1);
    assert!(rt; file.node_count() == 1 && file.move_count() == 1);
    assert_eq!(rt; file.formula_at(1), Some(TRUE));
    assert_eq!(rt; file.formula_at(2), None);
    assert_eq!(rt; file.label_at(0), Some(0));
    assert_eq!(rt; file.node_at(0), Some(NODE));
    assert_eq!(rt; file.move_at(0), Some(MOVE));
    assert_eq!(rt; file.move_at(1), None);
    Ok(())
}

#[test]
fn each_field_of_the_trailer_is_judged(rt: HostRuntime) {
    assert_eq!(rt; refused_field(&FILE), 99);
    for field in 0..10 {
        let mut bytes = FILE;
        bytes[41 + 2 * field] = 128;
        assert_eq!(rt; refused_field(&bytes), field);
    }
    assert_eq!(rt; refused_field(&[0; 19]), 10);
    assert_eq!(rt; refused_field(&[0; 20]), 1);
    assert_eq!(rt; refused_field(&[0; 47_124]), 1);
    assert_eq!(rt; refused_field(&[0; 47_125]), 11);
}

#[test]
fn writer_refuses_by_8_and_19(rt: HostRuntime) {
    let good = Sheet {
        kind: 2,
        formulas: &[FALSE, TRUE],
        labels: &[0],
        nodes: &[NODE],
        moves: &[MOVE],
    };
    assert_eq!(rt; refusal(&good), (99, 60, true));
    assert_eq!(rt;
        refusal(&Sheet {
            labels: &[0, 1],
            kind: 3,
            ..good
        },),
        (19, 3, true)
    );
    assert_eq!(rt;
        refusal(&Sheet {
            formulas: &[FALSE],
            kind: 3,
            ..good
        },),
        (8, 1, true)
    );
    assert_eq!(rt;
        refusal(&Sheet {
            nodes: &[],
            moves: &[],
            ..good
        },),
        (8, 5, true)
    );
    assert_eq!(rt;
        refusal(&Sheet {
            moves: &[],
            kind: 3,
            ..good
        },),
        (8, 7, true)
    );
    assert_eq!(rt; refusal(&Sheet { kind: 3, ..good }), (8, 8, true));
}

#[test]
fn source_by_formula_reads_back(rt: HostRuntime) -> Result<(), Fail> {
    let mut output = [0u8; 76];
    assert_eq!(rt; answer(&Pair, &mut output), Ok(76));
    let file = FileSource::open(&output)?;
    for i in 0..3 {
        assert_eq!(rt; file.formula_at(i), Pair.formula_at(i));
        assert_eq!(rt; file.node_at(i), Pair.node_at(i));
        assert_eq!(rt; file.move_at(i), Pair.move_at(i));
    }
    assert_eq!(rt; file.kind(), 1);
    Ok(())
}
