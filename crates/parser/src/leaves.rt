//! What the descent does besides descending: the nesting left, names and new nodes.
ghost use Rattle.std.specs.Prelude.{◌≡◌, ◌<◌, ◌≤◌, true, length};
ghost use Rattle.nodes.specs.declared.node.Node.TheVariants as node;
ghost use Rattle.nodes.specs.Trees.{parts_below};
ghost use Rattle.grammar.specs.Grammar.{word_name};
ghost use Rattle.parser.specs.Parsing.{Kept};
ghost use Rattle.parser.specs.Reading.{Ahead, Begun, Deeper, Pushed, ReadsBy, Ready, Rooted, variable_with};

use super::parsed::Parsed;
use super::reader::{Cursor, Part, Reader, Roots};
use super::table::Names;
use faults::{Reason, TextFault};
use index::Slot;
use lexer::token::Lexeme;
use names::Name;
use nodes::node::{Connective, Node};
use nodes::syntax::Syntax;

/// The nesting left behind a token that takes one, or its refusal where none is left.
pub(crate) fn deeper(left: u8, opener: Lexeme) -> Result<u8, TextFault>
    ensures { Deeper left opener result }
{
    left.checked_sub(1).ok_or(opener.fault(Reason::Nesting))
}

fn name_at(text: &[u8], seen: Lexeme) -> Name
    requires { (seen.from ≤ seen.next) × (seen.next ≤ length text.now) }
    ensures { result ≡ word_name text.now seen }
{
    Name::new(&text[seen.from..seen.next])
}

impl Reader {
    pub(crate) fn new() -> Reader
        ensures { Begun result }
    {
        Reader {
            nodes: [Node::Constant(false); 1024],
            count: 0,
            names: Names::new(),
        }
    }

    /// Adds a node behind the others, among which its parts stand; the text goes on at `next`.
    pub(crate) fn push(&mut self, node: Node, next: usize) -> Part
        requires room { self.old.count < 1024 }
        requires below { parts_below self.old.count node ≡ true }
        ensures { Pushed self.old node next self.new result }
    {
        let root = self.count;
        self.nodes[root] = node;
        self.count = root + 1;
        Part { root, next }
    }

    /// Two parts under a binary operator.
    pub(crate) fn join(&mut self, by: Connective, left: Part, right: Part) -> Part
        requires room { self.old.count < 1024 }
        requires below { (left.root < self.old.count) × (right.root < self.old.count) }
        ensures { Pushed self.old (node.Binary by left.root right.root) right.next self.new result }
    {
        self.push(Node::Binary(by, left.root, right.root), right.next)
    }

    /// The variable that a word names.
    pub(crate) fn variable(
        &mut self,
        slots: &mut [Slot<Name>],
        from: &Cursor<'_>,
        seen: Lexeme,
    ) -> Result<Part, TextFault>
        requires { (Ready slots.old self.old from.now.at) × (Ahead from.now.text.now from.now.at seen) }
        ensures { ReadsBy 0 (variable_with seen) from.now self.old self.new slots.new result }
    {
        let name = name_at(from.text, seen);
        let variable = self
            .names
            .declare(slots, name)
            .ok_or(seen.fault(Reason::Variables))?;
        Ok(self.push(Node::Variable(variable), seen.next))
    }

    /// Hands over what was read.
    pub(crate) fn finish(self, roots: Roots) -> Parsed
        requires { Rooted self roots }
        ensures { Kept self roots result }
    {
        let Reader {
            nodes,
            count,
            names,
        } = self;
        let Roots { initial, safety } = roots;
        let syntax = Syntax {
            nodes,
            count,
            initial,
            safety,
        };
        Parsed { syntax, names }
    }
}
