//! Variables are numbered by the first appearance of their names, each kind for itself.
ghost use Rattle.std.specs.Prelude.{◌≡◌, ◌+◌, ◌<◌, [], if◌then◌else◌};
ghost use Rattle.parser.specs.Naming.{Appended, Declared, Known, Numbered, names_of};

use super::table::Names;
use index::{Slot, find, insert};
use names::Name;

/// The name that fills the table past its count.
const BLANK: Name = Name {
    bytes: [0; 15],
    length: 0,
};

/// The variable that has so many of its kind before it. A name is one of the environment or not: the definitions compute with that truth
/// value, and an enum beside it would be no plainer.
fn variable_of(environment: bool, rank: u8) -> u8
    requires { rank < 16 }
    ensures { result ≡ (if environment then 0 else 16) + rank }
{
    if environment { rank } else { 16 + rank }
}

impl Names {
    pub(crate) fn new() -> Names
        ensures listed { names_of result ≡ [] }
        ensures numbered { Numbered result }
    {
        Names {
            items: [BLANK; 32],
            variables: [0; 32],
            count: 0,
            environment: 0,
            system: 0,
        }
    }

    /// How many variables the environment (true) or the system has.
    fn used(&self, environment: bool) -> u8
        ensures { result ≡ (if environment then self.now.environment else self.now.system) }
    {
        if environment {
            self.environment
        } else {
            self.system
        }
    }

    fn append(&mut self, name: Name, environment: bool, variable: u8)
        requires { (if environment then self.old.environment else self.old.system) < 16 }
        ensures { Appended self.old name environment variable self.new }
    {
        let at = self.count;
        self.items[at] = name;
        self.variables[at] = variable;
        self.count = at + 1;
        if environment {
            self.environment += 1;
        } else {
            self.system += 1;
        }
    }

    /// The variable of a name, which is a new one where the name was not met before; none where its kind is full.
    pub(crate) fn declare(&mut self, slots: &mut [Slot<Name>], name: Name) -> Option<u8>
        requires { Known slots.old self.old }
        ensures { Declared self.old name slots.new self.new result }
    {
        if let Some(number) = find(slots, &name) {
            return Some(self.variables[number as usize]);
        }
        let environment = name.is_environment();
        let rank = self.used(environment);
        if rank >= 16 {
            return None;
        }
        let variable = variable_of(environment, rank);
        insert(slots, name, self.count as u16);
        self.append(name, environment, variable);
        Some(variable)
    }
}
