//! An index over slots that the caller owns: a hash table with linear probing, for any kind of key.
//! It keeps a list of keys by number: the caller holds the keys 0, 1, 2, .., and the index says which number a key has.
//! A key's home is its code modulo the slot count. From there the slots are tried one after another, the first after the last.
#![tactic(auto)]

ghost use Rattle.std.specs.Prelude.{◌≡◌, ℕ, T as True, Decides, List, [], length, replicate, nat_le, ◌%◌};
ghost use Rattle.std.specs.Fn.{FnReturnsAt};
ghost use Rattle.index.specs.First.{FirstAt};
ghost use Rattle.index.specs.Keyed.{Extends, Found, FreeOrHolds, Indexed, Inserted, Looked, OneInsertion, OneLookup, Probed, Refuses, free_slot, slot_of};

mod entry;

pub use entry::{Entry, FREE};

/// A slot holds a key with its number, or is free.
#[derive(Clone, Copy)]
pub struct Slot<K> {
    pub held: Option<Entry<K>>,
}

/// How many slots the tables of a specification and of a card need.
pub const SLOTS: usize = 2048;

impl<K> Slot<K> {
    /// A slot that holds no key.
    pub fn free() -> Slot<K>
        ensures { result ≡ free_slot }
    {
        Slot { held: None }
    }
}

impl<K: Drop> Slot<K> {
    /// A slot that holds the key with this number; under the number `FREE`, which no key has, a free slot.
    pub fn holding(key: K, number: u16) -> Slot<K>
        ensures { result ≡ slot_of key number }
    {
        match number {
            FREE => Slot::free(),
            _ => Slot {
                held: Some(Entry { key, number }),
            },
        }
    }
}

/// What can be a key: it has a code, which depends on the key alone, and two keys can be compared.
pub trait Key {
    ghost coded: { Self → ℕ };

    fn code(&self) -> u32
        ensures { result ≡ coded self.now };

    // A bound `Eq` would ask more of those who bring a key.
    fn same(&self, other: &Self) -> bool
        ensures yes { True result → self.now ≡ other.now }
        ensures not { self.now ≡ other.now → True result };
}

/// Are there as many slots as each table needs?
pub fn enough<K>(slots: &[Slot<K>]) -> bool
    ensures { result ≡ nat_le 2048 (length slots.now) }
{
    slots.len() >= SLOTS
}

impl<K: Key> Slot<K> {
    /// Is the slot free, or does it hold this key?
    fn is_free_or_holds(&self, key: &K) -> bool
        ensures { Decides result (FreeOrHolds key.now self.now) }
    {
        match &self.held {
            None => true,
            Some(entry) => entry.key.same(key),
        }
    }
}

/// The first place among these slots at which the test is true.
fn first_at<K, F: Fn(&Slot<K>) -> bool>(slots: &[Slot<K>], stops: &F) -> Option<usize>
    requires { F.IsAlwaysCallable stops.now }
    ensures { FirstAt (FnReturnsAt F.Fn stops.now) slots.now result }
{
    for (at, slot) in slots.iter().enumerate() {
        if stops(slot) {
            return Some(at);
        }
    }
    None
}

/// The first place, from the key's home on, at whose slot the test is true.
// Copied, with the test, to where fields of the key are known: with a call for each, rests whose look-ups end at home cost a third more.
#[inline(always)]
fn probe<K: Key, F: Fn(&Slot<K>) -> bool>(slots: &[Slot<K>], key: &K, stops: F) -> Option<usize>
    requires { F.IsAlwaysCallable stops }
    ensures { Probed K.Key.coded (FnReturnsAt F.Fn stops) slots.now key.now result }
{
    let home = (key.code() as usize).checked_rem(slots.len())?;
    let (before, after) = slots.split_at(home);
    match first_at(after, &stops) {
        Some(further) => Some(home + further),
        None => first_at(before, &stops),
    }
}

/// Marks every slot free.
pub fn clear<K: Key + Copy>(slots: &mut [Slot<K>])
    ensures value { slots.new ≡ replicate (length slots.old) free_slot }
    ensures model { Indexed K.Key.coded slots.new [] }
{
    slots.fill(Slot::free());
}

/// The number of the key, or None where no slot on its way holds it.
// Copied as `probe` is.
#[inline(always)]
pub fn find<K: Key>(slots: &[Slot<K>], key: &K) -> Option<u16>
    ensures value { Looked K.Key.coded slots.now key.now result }
    ensures model { (ks : List K) → Indexed K.Key.coded slots.now ks → Found ks key.now result }
{
    let at = probe(slots, key, |slot| slot.is_free_or_holds(key))?;
    slots[at].held.as_ref().map(|entry| entry.number)
}

/// Writes the key with its number into the first free slot from its home, and says whether there was one.
pub fn insert<K: Key + Copy>(slots: &mut [Slot<K>], key: K, number: u16) -> bool
    ensures value { Inserted K.Key.coded slots.old key number result slots.new }
    ensures model { Extends K.Key.coded slots.old key number result slots.new }
    ensures full { Refuses slots.old result slots.new }
    ensures len { length slots.new ≡ length slots.old }
{
    match probe(slots, &key, |slot| slot.held.is_none()) {
        Some(at) => {
            slots[at] = Slot::holding(key, number);
            true
        }
        None => false,
    }
}

/// The law that the relation of `find` allows one answer only.
pub fn lookup_is_unique<K: Key>()
    ensures { OneLookup K.Key.coded }
{}

/// The law that the relation of `insert` allows one answer and one content of the slots only.
pub fn insertion_is_unique<K: Key>()
    ensures { OneInsertion K.Key.coded }
{}

#[cfg(test)]
mod tests {
    use super::*;

    // A key of one number whose code takes four values, so that keys meet at one home.
    #[derive(Clone, Copy, PartialEq, Eq)]
    struct Small(u16);

    impl Key for Small {
        ghost coded = { λ k. k.0 % 4 };

        fn code(&self) -> u32 {
            self.0 as u32 % 4
        }

        fn same(&self, other: &Small) -> bool {
            self == other
        }
    }

    // Homes 2, 2 and 2 among three slots: the second key wraps around, and the fourth finds no room.
    #[test]
    fn keys_of_one_home(rt: HostRuntime) {
        let mut slots = [Slot::holding(Small(9), 7); 3];
        clear(&mut slots);
        assert_eq!(rt; find(&slots, &Small(9)), None);
        assert!(rt; insert(&mut slots, Small(2), 0));
        assert!(rt; insert(&mut slots, Small(6), 1));
        assert_eq!(rt; slots[0].held.map(|entry| entry.number), Some(1));
        assert_eq!(rt; find(&slots, &Small(6)), Some(1));
        assert_eq!(rt; find(&slots, &Small(10)), None);
        assert!(rt; insert(&mut slots, Small(10), 2));
        assert_eq!(rt; find(&slots, &Small(10)), Some(2));
        assert!(rt; !insert(&mut slots, Small(14), 3));
        assert_eq!(rt; find(&slots, &Small(14)), None);
    }

    #[test]
    fn no_slots(rt: HostRuntime) {
        let mut slots = [Slot::free(); 0];
        clear(&mut slots);
        assert!(rt; !insert(&mut slots, Small(2), 0));
        assert_eq!(rt; find(&slots, &Small(2)), None);
    }

    // What is entered under 65,535 is not held, and its slot stays free.
    #[test]
    fn no_key_has_the_number_65535(rt: HostRuntime) {
        let mut slots = [Slot::free(); 1];
        clear(&mut slots);
        assert!(rt; insert(&mut slots, Small(1), 65_535));
        assert_eq!(rt; find(&slots, &Small(1)), None);
        assert!(rt; insert(&mut slots, Small(2), 0));
    }

    // One slot fewer than a table needs.
    #[test]
    fn slots_enough(rt: HostRuntime) {
        let slots: [Slot<Small>; SLOTS] = [Slot::free(); SLOTS];
        assert!(rt; enough(&slots));
        assert!(rt; !enough(&slots[1..]));
    }
}
