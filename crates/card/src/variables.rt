//! How many variables a specification has.

/// How many variables of the environment and of the system.
#[derive(Clone, Copy, PartialEq, Eq, Debug)]
pub struct Variables {
    pub environment: usize,
    pub system: usize,
}
