//! The recursive descent: `left` is the nesting left.
ghost use Rattle.parser.specs.Reading.{ReadsBy, Ready, arrow_with, chain_with, operand_with, unary_with};

use super::leaves::deeper;
use super::reader::{Cursor, Part, Reader};
use faults::TextFault;
use grammar::head::{Head, head_of, read_prefix, symbol_of};
use index::Slot;
use lexer::look::look;
use lexer::token::Symbol;
use names::Name;
use nodes::node::{Connective, Node};

impl Reader {
    // The slots are lent anew to each call: what ties them to the names stands in `Ready`, and cannot stand in the type.
    // The cursor is lent too: a copy for each call that passes it on would make the frames of the descent larger.

    /// A formula up to unary operators.
    #[cycle(arrow_chain_operand_unary)]
    fn unary(
        &mut self,
        slots: &mut [Slot<Name>],
        from: &Cursor<'_>,
        left: u8,
    ) -> Result<Part, TextFault>
        requires { Ready slots.old self.old from.now.at }
        ensures { ReadsBy 0 (unary_with left) from.now self.old self.new slots.new result }
    {
        let text = from.text;
        let seen = look(text, from.at);
        let head = head_of(seen.token).ok_or(seen.misplaced())?;
        match head {
            Head::Constant(value) => Ok(self.push(Node::Constant(value), seen.next)),
            Head::Variable => self.variable(slots, from, seen),
            Head::Prefix(operator) => {
                let left = deeper(left, seen)?;
                let prefixed = read_prefix(text, operator, seen.next)?;
                let at = prefixed.next;
                let part = self.unary(slots, &Cursor { text, at }, left)?;
                Ok(self.push(Node::Unary(prefixed.prefix, part.root), part.next))
            }
            Head::Group => {
                let left = deeper(left, seen)?;
                let at = seen.next;
                let part = self.arrow(Connective::Equivalent, slots, &Cursor { text, at }, left)?;
                let close = look(text, part.next);
                let next = close.expect(close.token.is_symbol(Symbol::Close))?;
                Ok(Part { next, ..part })
            }
        }
    }

    /// What stands beside a binary operator: each has the next tighter one.
    #[cycle(arrow_chain_operand_unary)]
    #[tactic(auto, unfolding(grammar::specs::Grammar::operand_by))]
    fn operand(
        &mut self,
        of: Connective,
        slots: &mut [Slot<Name>],
        from: &Cursor<'_>,
        left: u8,
    ) -> Result<Part, TextFault>
        requires { Ready slots.old self.old from.now.at }
        ensures { ReadsBy 0 (operand_with left of) from.now self.old self.new slots.new result }
    {
        match of {
            Connective::And => self.unary(slots, from, left),
            Connective::Or => self.chain(Connective::And, slots, from, left),
            Connective::Implies => self.chain(Connective::Or, slots, from, left),
            Connective::Equivalent => self.arrow(Connective::Implies, slots, from, left),
        }
    }

    /// Operands joined from the left.
    #[cycle(arrow_chain_operand_unary)]
    fn chain(
        &mut self,
        by: Connective,
        slots: &mut [Slot<Name>],
        from: &Cursor<'_>,
        left: u8,
    ) -> Result<Part, TextFault>
        requires { Ready slots.old self.old from.now.at }
        ensures { ReadsBy 0 (chain_with left by) from.now self.old self.new slots.new result }
    {
        let text = from.text;
        let mut part = self.operand(by, slots, from, left)?;
        // The loop ends with the text, not with a count; so do those over lines.
        'operands: loop {
            let seen = look(text, part.next);
            if !seen.token.is_symbol(symbol_of(by)) {
                return Ok(part);
            }
            let at = seen.next;
            let right = self.operand(by, slots, &Cursor { text, at }, left)?;
            part = self.join(by, part, right);
        }
    }

    /// Two formulas joined by an arrow, or the first alone.
    #[cycle(arrow_chain_operand_unary)]
    pub(crate) fn arrow(
        &mut self,
        by: Connective,
        slots: &mut [Slot<Name>],
        from: &Cursor<'_>,
        left: u8,
    ) -> Result<Part, TextFault>
        requires { Ready slots.old self.old from.now.at }
        ensures { ReadsBy 0 (arrow_with left by) from.now self.old self.new slots.new result }
    {
        let text = from.text;
        let part = self.operand(by, slots, from, left)?;
        let seen = look(text, part.next);
        if !seen.token.is_symbol(symbol_of(by)) {
            return Ok(part);
        }
        let left = deeper(left, seen)?;
        let at = seen.next;
        let right = self.arrow(Connective::Implies, slots, &Cursor { text, at }, left)?;
        Ok(self.join(by, part, right))
    }
}
