//! The list of formulas, as it is built.
ghost use Rattle.std.specs.Prelude.{◌≡◌, ◌<◌, ◌≤◌, true, [], length};
ghost use Rattle.temporal.specs.Formula.{kind, other};
ghost use Rattle.formulas.specs.Entries.{entry_code};
ghost use Rattle.formulas.specs.Trees.{ordered as in_order, parts_below};
ghost use Rattle.index.specs.Keyed.{Indexed};
ghost use Rattle.normal.specs.Constants.{junction as joined_by};
ghost use Rattle.normal.specs.Operands.{binary_of, equivalence_of, formula_of, unary_of};
ghost use Rattle.normal.specs.Building.{Adds, Begun, Enters, Finished, Ready, Remembers, Sound, entries_of, recalled};
ghost use Rattle.normal.specs.Building.{literal_of, number_of};

use super::constants::{Plan, joint, plan_for, read};
use super::known::KnownNodes;
use super::operand::Operand;
use super::table::Formulas;
use formulas::Formula;
use formulas::junction::Junction;
use index::{Slot, find, insert};
use nodes::node::{Connective, Node, Prefix};

/// The formulas listed so far, and for each operand, by its place, the number that it has in the list.
/// The list is an array with a count, and not a `Vec`, since nothing here allocates.
#[derive(Drop)]
pub struct Builder {
    pub entries: [Formula; 256],
    pub count: usize,
    pub numbers: [Option<u16>; 2048],
}

/// The number of a constant in the list.
fn number_of(constant: bool) -> u16
    ensures { result ≡ number_of constant }
{
    constant as u16
}

/// A variable or its negation. A sign picks one of two entries; an enum for the sign would be no plainer.
fn literal(sign: bool, variable: u8) -> Formula
    ensures { result ≡ literal_of sign variable }
{
    if sign {
        Formula::Variable(variable)
    } else {
        Formula::Negated(variable)
    }
}

impl Builder {
    // The slots are lent anew to each call: what ties them to the list stands in `Ready`, and cannot stand in the type.
    // The nodes with their constants are lent too: a copy for each call that passes them on would make the frames of the descent larger.

    /// A list of the constants alone, which the slots index.
    pub fn new(slots: &mut [Slot<Formula>]) -> Builder
        requires clear { Indexed entry_code slots.old [] }
        requires room { 2048 ≤ length slots.old }
        ensures { Begun slots.new result }
    {
        let mut builder = Builder {
            entries: [Formula::False; 256],
            count: 0,
            numbers: [None; 2048],
        };
        let _ = builder.add(slots, Formula::False);
        let _ = builder.add(slots, Formula::True);
        builder
    }

    /// The list as it is handed on, with the numbers of its two formulas.
    pub fn finish(self, initial: u16, safety: u16) -> Formulas
        requires few { (self.count ≤ 256) × (length self.entries ≡ 256) }
        requires ordered { in_order (entries_of self) ≡ true }
        requires rooted { (initial < self.count) × (safety < self.count) }
        ensures { Finished self initial safety result }
    {
        let table = self.entries;
        Formulas {
            table,
            count: self.count,
            initial,
            safety,
        }
    }

    /// The number of an entry; one that is not listed yet comes at the end, unless the list is full.
    fn add(&mut self, slots: &mut [Slot<Formula>], entry: Formula) -> Option<u16>
        requires sound { Sound slots.old self.old }
        requires parts { parts_below self.old.count entry ≡ true }
        ensures { Adds slots.new self.old entry self.new result }
    {
        if let Some(i) = find(slots, &entry) {
            return Some(i);
        }
        if self.count == 256 {
            return None;
        }
        let number = self.count as u16;
        let _ = insert(slots, entry, number);
        self.entries[self.count] = entry;
        self.count += 1;
        Some(number)
    }

    /// The number remembered for an operand.
    fn recall(&self, operand: Operand) -> Option<u16>
        requires { operand.node < 1024 }
        ensures { result ≡ recalled self.now operand.sign operand.node }
    {
        read(&self.numbers, operand.place())
    }

    /// Remembers the number of an operand.
    fn remember(&mut self, operand: Operand, number: u16)
        requires { operand.node < 1024 }
        ensures { Remembers self.old operand number self.new }
    {
        self.numbers[operand.place()] = Some(number);
    }

    /// Enters the normal form of an operand with its parts, and gives its number.
    #[cycle(binary_build_enter_equivalence_pair_unary)]
    pub fn enter(
        &mut self,
        known: &KnownNodes<'_>,
        slots: &mut [Slot<Formula>],
        operand: Operand,
    ) -> Option<u16>
        requires within { operand.node < length known.now.nodes.now }
        requires ready { Ready known.now.nodes.now slots.old self.old }
        ensures { Enters known.now.nodes.now slots.new self.old
            (formula_of known.now.nodes.now operand)
            self.new result }
    {
        if let Some(x) = known.constant(operand) {
            return Some(number_of(x));
        }
        if let Some(number) = self.recall(operand) {
            return Some(number);
        }
        let number = self.build(known, slots, operand)?;
        self.remember(operand, number);
        Some(number)
    }

    /// The same for an operand that is no constant, whether or not it was entered before.
    #[cycle(binary_build_enter_equivalence_pair_unary)]
    fn build(
        &mut self,
        known: &KnownNodes<'_>,
        slots: &mut [Slot<Formula>],
        operand: Operand,
    ) -> Option<u16>
        requires within { operand.node < length known.now.nodes.now }
        requires ready { Ready known.now.nodes.now slots.old self.old }
        requires varies { kind (formula_of known.now.nodes.now operand) ≡ other }
        ensures { Enters known.now.nodes.now slots.new self.old
            (formula_of known.now.nodes.now operand)
            self.new result }
    {
        let sign = operand.sign;
        match known.nodes[operand.node] {
            Node::Constant(x) => Some(number_of(x == sign)),
            Node::Variable(v) => self.add(slots, literal(sign, v)),
            Node::Unary(prefix, node) => self.unary(known, slots, prefix, Operand { node, sign }),
            Node::Binary(connective, a, b) => self.binary(known, slots, connective, a, b, sign),
        }
    }

    /// Enters an operand under a unary operator, which is no constant.
    #[cycle(binary_build_enter_equivalence_pair_unary)]
    fn unary(
        &mut self,
        known: &KnownNodes<'_>,
        slots: &mut [Slot<Formula>],
        prefix: Prefix,
        part: Operand,
    ) -> Option<u16>
        requires within { part.node < length known.now.nodes.now }
        requires ready { Ready known.now.nodes.now slots.old self.old }
        requires varies { kind (unary_of known.now.nodes.now prefix part) ≡ other }
        ensures { Enters known.now.nodes.now slots.new self.old
            (unary_of known.now.nodes.now prefix part)
            self.new result }
    {
        match prefix {
            Prefix::Not => self.enter(known, slots, part.negated()),
            Prefix::Next(n) => {
                let number = self.enter(known, slots, part)?;
                self.add(slots, Formula::Next(n, number))
            }
            Prefix::Always(n, m) => {
                let number = self.enter(known, slots, part)?;
                self.add(slots, Junction::And.under(part.sign).over(n, m, number))
            }
            Prefix::Eventually(n, m) => {
                let number = self.enter(known, slots, part)?;
                self.add(slots, Junction::Or.under(part.sign).over(n, m, number))
            }
        }
    }

    // The two parts of a formula are no one value; only the functions of the two-part connectives take both.
    /// Enters two nodes under a binary operator, or the negation of that.
    #[cycle(binary_build_enter_equivalence_pair_unary)]
    fn binary(
        &mut self,
        known: &KnownNodes<'_>,
        slots: &mut [Slot<Formula>],
        connective: Connective,
        a: usize,
        b: usize,
        sign: bool,
    ) -> Option<u16>
        requires first { a < length known.now.nodes.now }
        requires second { b < length known.now.nodes.now }
        requires ready { Ready known.now.nodes.now slots.old self.old }
        ensures { Enters known.now.nodes.now slots.new self.old
            (binary_of known.now.nodes.now connective a b sign)
            self.new result }
    {
        let p = Operand { node: a, sign };
        let q = Operand { node: b, sign };
        match connective {
            Connective::And => self.pair(known, slots, Junction::And.under(sign), p, q),
            Connective::Or => self.pair(known, slots, Junction::Or.under(sign), p, q),
            Connective::Implies => {
                self.pair(known, slots, Junction::Or.under(sign), p.negated(), q)
            }
            Connective::Equivalent => self.equivalence(known, slots, a, b, sign),
        }
    }

    /// Enters the conjunction or disjunction of two operands.
    #[cycle(binary_build_enter_equivalence_pair_unary)]
    fn pair(
        &mut self,
        known: &KnownNodes<'_>,
        slots: &mut [Slot<Formula>],
        junction: Junction,
        a: Operand,
        b: Operand,
    ) -> Option<u16>
        requires first { a.node < length known.now.nodes.now }
        requires second { b.node < length known.now.nodes.now }
        requires ready { Ready known.now.nodes.now slots.old self.old }
        ensures { Enters known.now.nodes.now slots.new self.old
            (joined_by junction (formula_of known.now.nodes.now a) (formula_of known.now.nodes.now b))
            self.new result }
    {
        match plan_for(junction, known.constant(a), known.constant(b)) {
            Plan::Constant(x) => Some(number_of(x)),
            Plan::First => self.enter(known, slots, a),
            Plan::Second => self.enter(known, slots, b),
            Plan::Both => {
                let left = self.enter(known, slots, a)?;
                let right = self.enter(known, slots, b)?;
                self.add(slots, junction.of_both(left, right))
            }
        }
    }

    /// Enters the disjunction of two conjunctions that an equivalence, or its negation, is. It has the match of `pair`, since its parts are
    /// pairs: a trait of both kinds of parts would be no plainer, and its method would stand in this cycle of calls.
    #[cycle(binary_build_enter_equivalence_pair_unary)]
    fn equivalence(
        &mut self,
        known: &KnownNodes<'_>,
        slots: &mut [Slot<Formula>],
        a: usize,
        b: usize,
        sign: bool,
    ) -> Option<u16>
        requires first { a < length known.now.nodes.now }
        requires second { b < length known.now.nodes.now }
        requires ready { Ready known.now.nodes.now slots.old self.old }
        ensures { Enters known.now.nodes.now slots.new self.old
            (equivalence_of known.now.nodes.now a b sign)
            self.new result }
    {
        let p = Operand {
            node: a,
            sign: true,
        };
        let q = Operand { node: b, sign };
        let not_p = p.negated();
        let not_q = q.negated();
        let both = joint(Junction::And, known.constant(p), known.constant(q));
        let neither = joint(Junction::And, known.constant(not_p), known.constant(not_q));
        match plan_for(Junction::Or, both, neither) {
            Plan::Constant(x) => Some(number_of(x)),
            Plan::First => self.pair(known, slots, Junction::And, p, q),
            Plan::Second => self.pair(known, slots, Junction::And, not_p, not_q),
            Plan::Both => {
                let left = self.pair(known, slots, Junction::And, p, q)?;
                let right = self.pair(known, slots, Junction::And, not_p, not_q)?;
                self.add(slots, Junction::Or.of_both(left, right))
            }
        }
    }
}
