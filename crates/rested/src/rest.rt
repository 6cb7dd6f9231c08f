//! The rest of each formula of a list, by one reading.
ghost use Rattle.std.specs.Prelude.{◌≡◌, ℕ, ◌≤◌, length, None, slice_index_or};
ghost use Rattle.formulas.specs.Junctions.{join_of, range_of};
ghost use Rattle.rested.specs.Listing.{Ready};
ghost use Rattle.rested.specs.Rests.{AllRested, OneAnswer};
ghost use Rattle.rested.specs.Steps.{Joined, JoinedBoth, Listed, RestOfEntry, RestOfNext, RestOfRange};

use crate::key::FormulaKey;
use crate::reading::Reading;
use formulas::Formula;
use formulas::junction::Junction;
use index::{Slot, find};
use records::FormulaRecord;

/// The number of a listed record.
// Copied, as are the rests below that are so marked, since where they are used the record's kind is known and most fields are 0.
#[inline(always)]
pub fn listed(slots: &[Slot<FormulaKey>], formula: FormulaRecord) -> Option<u16>
    ensures { Listed slots.now formula result }
{
    find(slots, &FormulaKey { formula })
}

/// Entries x and y joined.
fn joined(slots: &[Slot<FormulaKey>], junction: Junction, x: u16, y: u16) -> Option<u16>
    ensures { Joined (join_of junction) slots.now x y result }
{
    let absorbing = junction.absorbing();
    let neutral = junction.neutral();
    if x == absorbing || y == absorbing {
        return Some(absorbing);
    }
    if x == neutral {
        return Some(y);
    }
    if y == neutral {
        return Some(x);
    }
    listed(slots, junction.of_both(x, y).into())
}

/// Two answers joined; none where one is none.
#[inline(always)]
fn joined_both(
    slots: &[Slot<FormulaKey>],
    junction: Junction,
    x: Option<u16>,
    y: Option<u16>,
) -> Option<u16>
    ensures { JoinedBoth (join_of junction) slots.now x y result }
{
    joined(slots, junction, x?, y?)
}

/// The rest of X[n] of entry a.
#[inline(always)]
fn rest_of_next(slots: &[Slot<FormulaKey>], n: u16, a: u16) -> Option<u16>
    ensures { RestOfNext slots.now a n result }
{
    if n <= 1 {
        return Some(a);
    }
    listed(slots, Formula::Next(n - 1, a).into())
}

/// The rest of G[n,m] or F[n,m] of entry a, whose own rest is `body`. A range that has not begun comes a step nearer; one that has
/// begun joins the rest of the body with what is left of it.
fn rest_of_range(
    slots: &[Slot<FormulaKey>],
    junction: Junction,
    body: Option<u16>,
    n: u16,
    m: u16,
    a: u16,
) -> Option<u16>
    ensures { RestOfRange (range_of junction) slots.now body a n m result }
{
    if n > 0 {
        return listed(slots, junction.over(n - 1, m.saturating_sub(1), a).into());
    }
    if m == 0 {
        return body;
    }
    let shorter = listed(slots, junction.over(0, m - 1, a).into());
    joined_both(slots, junction, body, shorter)
}

/// What the memo has at a place; none past its end.
fn recalled(memo: &[Option<u16>; 1024], i: u16) -> Option<u16>
    ensures { result ≡ slice_index_or memo.now i None }
{
    memo.get(i as usize).copied().flatten()
}

/// The rest of a formula whose parts stand before it, where the memo has their rests.
fn rest_of<R: Reading>(
    slots: &[Slot<FormulaKey>],
    memo: &[Option<u16>; 1024],
    reading: &R,
    f: FormulaRecord,
) -> Option<u16>
    ensures { RestOfEntry (R.literals reading.now) slots.now memo.now f result }
{
    match Formula::try_from(f).ok()? {
        Formula::False => Some(0),
        Formula::True => Some(1),
        Formula::Variable(v) => Some(u16::from(reading.counts(true, v))),
        Formula::Negated(v) => Some(u16::from(reading.counts(false, v))),
        Formula::And(a, b) => joined_both(
            slots,
            Junction::And,
            recalled(memo, a),
            recalled(memo, b),
        ),
        Formula::Or(a, b) => joined_both(slots, Junction::Or, recalled(memo, a), recalled(memo, b)),
        Formula::Next(n, a) => rest_of_next(slots, n, a),
        Formula::Always(n, m, a) => rest_of_range(slots, Junction::And, recalled(memo, a), n, m, a),
        Formula::Eventually(n, m, a) => rest_of_range(
            slots,
            Junction::Or,
            recalled(memo, a),
            n,
            m,
            a,
        ),
    }
}

/// The rest of every formula of the list by the reading, as the number of its entry; none for a formula of whose rests one is not
/// listed. Parts stand before wholes, so one ascending pass suffices. What stands past the list's end is none.
pub fn rests<R: Reading>(
    records: &[FormulaRecord],
    slots: &[Slot<FormulaKey>],
    reading: &R,
) -> [Option<u16>; 1024]
    ensures rested { Ready records.now slots.now → AllRested (R.literals reading.now) records.now result }
    ensures past { (i : ℕ) → length records.now ≤ i → slice_index_or result i None ≡ None }
    ensures len { length result ≡ 1024 }
{
    // No heap: an array for the largest list.
    let mut memo = [None; 1024];
    for (i, record) in records.iter().enumerate().take(1024) {
        memo[i] = rest_of(slots, &memo, reading, *record);
    }
    memo
}

/// The law that the relation of `rests` allows one answer only.
pub fn rests_are_unique()
    ensures { OneAnswer }
{}
