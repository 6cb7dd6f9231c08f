//! From the nodes of a text to the list of its formulas in normal form.
#![tactic(auto)]

ghost use Rattle.std.specs.Prelude.{◌≡◌, ◌≤◌, [], length, take};
ghost use Rattle.formulas.specs.Entries.{entry_code};
ghost use Rattle.index.specs.Keyed.{Indexed};
ghost use Rattle.normal.specs.Building.{ListedBy};
ghost use Rattle.normal.specs.Normalized.{Leaves, Normalized};

use builder::Builder;
use constants::constants;
use formulas::Formula;
use index::{Key, Slot, clear, enough};
use known::KnownNodes;
use nodes::syntax::Syntax;
use operand::Operand;
use table::{Formulas, Refusal};

mod builder;
mod constants;
mod known;
mod operand;
pub mod table;

/// The list of the formulas of a text in normal form, unless it has more than 256 entries.
fn list_of(syntax: &Syntax, slots: &mut [Slot<Formula>]) -> Option<Formulas>
    requires clear { Indexed entry_code slots.old [] }
    requires room { 2048 ≤ length slots.old }
    ensures { ListedBy (take syntax.now.count syntax.now.nodes) syntax.now.initial syntax.now.safety slots.new result }
{
    let nodes = &syntax.nodes[0..syntax.count];
    let known = KnownNodes {
        nodes,
        constants: &constants(nodes),
    };
    let mut builder = Builder::new(slots);
    let first = builder.enter(
        &known,
        slots,
        Operand {
            node: syntax.initial,
            sign: true,
        },
    )?;
    let second = builder.enter(
        &known,
        slots,
        Operand {
            node: syntax.safety,
            sign: true,
        },
    )?;
    Some(builder.finish(first, second))
}

/// The list of the formulas of a text in normal form, with all their parts.
/// The slots are the room for an index of the list; it wants at least 2,048 of them, whatever they hold.
pub fn normalize(syntax: &Syntax, slots: &mut [Slot<Formula>]) -> Result<Formulas, Refusal>
    ensures value { Normalized syntax.now (length slots.old) result }
    ensures slots { Leaves slots.old result slots.new }
{
    if !enough(slots) {
        return Err(Refusal::Short);
    }
    clear(slots);
    list_of(syntax, slots).ok_or(Refusal::TooMany)
}

#[cfg(test)]
mod tests {
    use super::*;
    use index::Key;
    use nodes::node::{Connective, Node};
    use std::test::Fail;

    /// `True`, and `p <-> q` with an environment variable p and a system variable q.
    fn equivalence() -> Syntax {
        let mut nodes = [Node::Constant(true); 1024];
        nodes[1] = Node::Variable(0);
        nodes[2] = Node::Variable(16);
        nodes[3] = Node::Binary(Connective::Equivalent, 1, 2);
        Syntax {
            nodes,
            count: 4,
            initial: 0,
            safety: 3,
        }
    }

    /// False, True, p, q, p & q, -p, -q, -p & -q, and the disjunction of the two conjunctions.
    #[test]
    fn equivalence_is_two_conjunctions(rt: HostRuntime) -> Result<(), Fail> {
        let mut slots = [Slot::holding(Formula::False, 7); 2048];
        let Ok(formulas) = normalize(&equivalence(), &mut slots) else {
            return Err(Fail::new("refused"));
        };
        assert_eq!(rt; formulas.count, 9);
        assert_eq!(rt; formulas.initial, 1);
        assert_eq!(rt; formulas.safety, 8);
        let (both, negated, whole) = (formulas.table[4], formulas.table[6], formulas.table[8]);
        assert!(rt; both.same(&Formula::And(2, 3)));
        assert!(rt; negated.same(&Formula::Negated(16)));
        assert!(rt; whole.same(&Formula::Or(4, 7)));
        Ok(())
    }

    #[test]
    fn few_slots_are_refused(rt: HostRuntime) {
        let mut slots = [Slot::holding(Formula::False, 7); 2047];
        assert!(rt; is_short(normalize(&equivalence(), &mut slots)));
    }

    fn is_short(r: Result<Formulas, Refusal>) -> bool {
        matches!(r, Err(Refusal::Short))
    }
}
