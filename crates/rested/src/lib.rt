//! The rests of a card's formulas after a move, in one ascending pass over the card's list.
#![tactic(auto)]

pub mod key;
pub mod reading;
pub mod rest;

#[cfg(test)]
mod tests {
    use crate::key::FormulaKey;
    use crate::reading::{Cautious, Generous};
    use crate::rest::rests;
    use index::{Slot, clear, insert};
    use records::{FormulaRecord, MoveRecord};

    fn formula(kind: u8, variable: u8, a: u16, b: u16, n: u16, m: u16) -> FormulaRecord {
        FormulaRecord {
            kind,
            variable,
            a,
            b,
            n,
            m,
        }
    }

    fn enter(slots: &mut [Slot<FormulaKey>], formulas: &[FormulaRecord]) {
        for i in 0..formulas.len().min(64) {
            let key = FormulaKey {
                formula: formulas[i],
            };
            insert(slots, key, i as u16);
        }
    }

    fn indexed(formulas: &[FormulaRecord]) -> [Slot<FormulaKey>; 64] {
        let mut slots = [Slot::free(); 64];
        clear(&mut slots);
        enter(&mut slots, formulas);
        slots
    }

    // A move that leaves the environment's variables free.
    fn system(mask: u16, values: u16) -> MoveRecord {
        MoveRecord {
            env_mask: 0,
            env_values: 0,
            sys_mask: mask,
            sys_values: values,
            target: 0,
        }
    }

    // s <-> X p, with s variable 16 and p variable 0: (s & X p) | (-s & X -p), and last p | -p.
    fn equivalence() -> [FormulaRecord; 12] {
        [
            formula(0, 0, 0, 0, 0, 0),
            formula(1, 0, 0, 0, 0, 0),
            formula(2, 16, 0, 0, 0, 0),
            formula(3, 16, 0, 0, 0, 0),
            formula(2, 0, 0, 0, 0, 0),
            formula(3, 0, 0, 0, 0, 0),
            formula(6, 0, 4, 0, 1, 0),
            formula(6, 0, 5, 0, 1, 0),
            formula(4, 0, 2, 6, 0, 0),
            formula(4, 0, 3, 7, 0, 0),
            formula(5, 0, 8, 9, 0, 0),
            formula(5, 0, 4, 5, 0, 0),
        ]
    }

    #[test]
    fn generous_rests(rt: HostRuntime) {
        let list = equivalence();
        let free = rests(&list, &indexed(&list), &Generous(system(0, 0)));
        assert_eq!(rt; free[3], Some(1));
        assert_eq!(rt; free[8], Some(4));
        assert_eq!(rt; free[10], Some(11));
        let fixed = rests(&list, &indexed(&list), &Generous(system(1, 1)));
        assert_eq!(rt; fixed[3], Some(0));
        assert_eq!(rt; fixed[10], Some(4));
    }

    // Without p | -p the rest of the whole is not listed.
    #[test]
    fn missing_rest(rt: HostRuntime) {
        let list = equivalence();
        let r = rests(
            &list[0..11],
            &indexed(&list[0..11]),
            &Generous(system(0, 0)),
        );
        assert_eq!(rt; r[9], Some(5));
        assert_eq!(rt; r[10], None);
    }

    #[test]
    fn cautious_rests(rt: HostRuntime) {
        let list = equivalence();
        let free = rests(&list, &indexed(&list), &Cautious(system(0, 0)));
        assert_eq!(rt; free[2], Some(0));
        assert_eq!(rt; free[7], Some(5));
        assert_eq!(rt; free[10], Some(0));
        let fixed = rests(&list, &indexed(&list), &Cautious(system(1, 0)));
        assert_eq!(rt; fixed[3], Some(1));
        assert_eq!(rt; fixed[10], Some(5));
    }

    // G[0,1] s, G[0,2] s and X[3] s over the list without G[0,0] s: a shorter G is asked for beside false too.
    #[test]
    fn ranges(rt: HostRuntime) {
        let list = [
            formula(0, 0, 0, 0, 0, 0),
            formula(1, 0, 0, 0, 0, 0),
            formula(2, 16, 0, 0, 0, 0),
            formula(7, 0, 2, 0, 0, 1),
            formula(7, 0, 2, 0, 0, 2),
            formula(6, 0, 2, 0, 2, 0),
            formula(6, 0, 2, 0, 3, 0),
            formula(8, 0, 2, 0, 1, 3),
            formula(8, 0, 2, 0, 0, 2),
        ];
        let r = rests(&list, &indexed(&list), &Cautious(system(1, 0)));
        assert_eq!(rt; r[3], None);
        assert_eq!(rt; r[4], Some(0));
        assert_eq!(rt; r[5], None);
        assert_eq!(rt; r[6], Some(5));
        assert_eq!(rt; r[7], Some(8));
        assert_eq!(rt; r[8], None);
        assert_eq!(rt; r[9], None);
    }
}
