//! A key with its number.
ghost use Rattle.std.specs.Prelude.{◌≡◌, ◌<◌};

use std::alloc::AllocError;

/// The number that no key has; what is entered under it is not held.
pub const FREE: u16 = 65_535;

/// A key with its number. No key has the number 65,535 (`numbered`).
#[derive(Copy)]
pub struct Entry<K> {
    pub key: K,
    pub number: u16,
    ghost numbered: { number < 65535 },
}

impl<K: Clone> Clone for Entry<K> {
    ghost is_clone = { λ x y. K.is_clone x.key y.key × (y.number ≡ x.number) };

    ghost is_infallible = { λ x. K.is_infallible x.key };

    fn clone(&self) -> Result<Entry<K>, AllocError> {
        Ok(Entry {
            key: self.key.clone()?,
            number: self.number,
        })
    }
}
