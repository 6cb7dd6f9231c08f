//! Files as the programs read them.
#![tactic(auto)]

use std::fs;

/// The bytes of a file: none where it cannot be read.
pub fn read_or_empty(rt: &HostRuntime, path: &str) -> Vec<u8> {
    match fs::read(rt, path) {
        Ok(bytes) => bytes,
        Err(_) => Vec::new(rt.alloc()),
    }
}
