//! The sections of a text.
ghost use Rattle.std.specs.Prelude.{◌≡◌, ◌≤◌, [], length};
ghost use Rattle.grammar.specs.Sections.{formula_in, safety_in, sections_of};
ghost use Rattle.parser.specs.Naming.{names_of};
ghost use Rattle.parser.specs.Reading.{ReadsBy, Ready, Sectioned};

use super::lines::{expect_line, header, skip_lines, third_begins, third_section};
use super::reader::{Cursor, Part, Reader, Roots};
use faults::TextFault;
use index::Slot;
use names::Name;
use nodes::node::Connective;

impl Reader {
    /// A formula on a line of its own, behind blank lines; nesting goes 32 deep.
    fn formula(&mut self, slots: &mut [Slot<Name>], from: Cursor) -> Result<Part, TextFault>
        requires { Ready slots.old self.old from.at }
        ensures { ReadsBy 1 formula_in from.entry self.old self.new slots.new result }
    {
        let text = from.text;
        let at = skip_lines(text, from.at);
        let part = self.arrow(Connective::Equivalent, slots, &Cursor { text, at }, 32)?;
        let next = expect_line(text, part.next)?;
        Ok(Part { next, ..part })
    }

    /// The safety lines, joined by conjunction from the left.
    fn safety(&mut self, slots: &mut [Slot<Name>], from: Cursor) -> Result<Part, TextFault>
        requires { Ready slots.old self.old from.at }
        ensures { ReadsBy 1 safety_in from.entry self.old self.new slots.new result }
    {
        let text = from.text;
        let mut part = self.formula(slots, from)?;
        'rows: loop {
            let at = part.next;
            if third_begins(text, skip_lines(text, at)) {
                return Ok(part);
            }
            let line = self.formula(slots, Cursor { text, at })?;
            part = self.join(Connective::And, part, line);
        }
    }

    /// The three sections of a text.
    pub(crate) fn sections(
        &mut self,
        text: &[u8],
        slots: &mut [Slot<Name>],
    ) -> Result<Roots, TextFault>
        requires short { length text.now ≤ 1024 }
        requires ready { (Ready slots.old self.old 0) × (names_of self.old.names ≡ []) }
        ensures { Sectioned (sections_of text.now) self.new result }
    {
        let at = header(text, b"Initial", b"Formula", 0)?;
        let initial = self.formula(slots, Cursor { text, at })?;
        let at = header(text, b"Safety", b"Formula", initial.next)?;
        let safety = self.safety(slots, Cursor { text, at })?;
        third_section(text, skip_lines(text, safety.next))?;
        Ok(Roots {
            initial: initial.root,
            safety: safety.root,
        })
    }
}
