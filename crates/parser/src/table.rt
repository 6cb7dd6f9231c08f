//! The names of a text's variables, in order of appearance.
ghost use Rattle.std.specs.Prelude.{◌≡◌, ◌+◌, ◌≤◌};

use names::Name;

/// At most 32 names, each with the number of its variable: at most 16 of the environment and 16 of the system.
/// Entries from the count on are blank.
/// The table is Copy and takes no heap, so it has arrays and a count; the names have one of their own, since they are lent as one slice.
#[derive(Clone, Copy)]
pub struct Names {
    pub items: [Name; 32],
    pub variables: [u8; 32],
    pub count: usize,
    pub environment: u8,
    pub system: u8,
    ghost limits: { (environment ≤ 16) × (system ≤ 16) × (count ≡ environment + system) },
}
