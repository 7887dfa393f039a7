//! A set of numbers below 64 as a plain record of an ascending list.

ghost use Rattle.std.specs.Prelude.{◌≡◌, ℕ, ◌<◌, ◌≤◌, true, false, not, ◌&&◌, ◌||◌, ◌↔◌, IsTrue, nat_lt};
ghost use Rattle.sets.specs.Members.{with_member};
ghost use Rattle.sets.specs.Ascending.{ascend_from};
ghost use Rattle.sets.specs.ListRecords.{passes, members, Ascends, RestIsZero};
ghost use Rattle.sets.specs.ListRecordsLemmas.{members_below, record_of, record_of_lem};
ghost use Rattle.std.proofs.Common.{rules};

use crate::ascending_list::AscendingList;
use crate::small_set::SmallSet;

/// What lies in memory, and so a plain record: its length stands beside its items. Any numbers may stand in it: the
/// first `len` items are the members if they pass the check, and a record that fails it means the empty set. Each call
/// makes the list from the record and, where it changes the set, writes back the record of a list.
#[derive(Clone, Copy)]
pub struct ListRecord {
    pub len: u8,
    pub items: [u8; 64],
}

impl ListRecord {
    /// The check: whether the first `len` items, at most 64, are below 64 and ascend strictly.
    pub(crate) fn passes_check(&self) -> bool
        ensures test { result ≡ passes self.now }
        ensures ascends { IsTrue result ↔ Ascends self.now }
    {
        self.items
            .get(..usize::from(self.len))
            .is_some_and(|listed| ascends(listed))
    }
}

/// Whether the numbers are below 64 and ascend strictly.
fn ascends(numbers: &[u8]) -> bool
    ensures { result ≡ ascend_from 0 numbers.now }
{
    let [.., last] = numbers else {
        return true;
    };
    // If they ascend, the last is the greatest.
    *last < 64 && numbers.is_sorted_by(|a, b| a < b)
}

// Where a method has clauses of its own, they repeat the trait's and add that what is written passes the check and
// holds 0 in the items that are not used. A number that is too great alters nothing in a record that passes the check,
// and empties one that fails it. A plain record cannot hold these facts: any numbers may stand in memory.
impl SmallSet for ListRecord {
    const W: u16 = 64;

    ghost W = { 64 };

    ghost has = { members };

    ghost range = { Prim.search rules };

    ghost below = { members_below };

    ghost every = { λ p. (record_of p, record_of_lem p) };

    fn empty() -> ListRecord
        ensures members { (n : ℕ) → members result n ≡ false }
        ensures passes { IsTrue (passes result) }
        ensures rest { RestIsZero result }
    {
        AscendingList::empty().into()
    }

    fn insert(&mut self, n: u16) -> bool
        ensures members { (k : ℕ) → members self.new k ≡ with_member 64 n (members self.old) k }
        ensures grew { result ≡ (nat_lt n 64 && not (members self.old n)) }
        ensures passes { IsTrue (passes self.new) }
        ensures rest { n < 64 → RestIsZero self.new }
        ensures unaltered { 64 ≤ n → IsTrue (passes self.old) → self.new ≡ self.old }
        ensures emptied { passes self.old ≡ false → RestIsZero self.new }
    {
        let list = AscendingList::of_record(*self);
        let grows = n < Self::W && !list.contains(n);
        *self = list.with(n).into();
        grows
    }

    fn contains(&self, n: u16) -> bool {
        AscendingList::of_record(*self).contains(n)
    }

    fn union(&self, other: &ListRecord) -> ListRecord
        ensures members { (n : ℕ) → members result n ≡ (members self.now n || members other.now n) }
        ensures passes { IsTrue (passes result) }
        ensures rest { RestIsZero result }
    {
        let a = AscendingList::of_record(*self);
        let b = AscendingList::of_record(*other);
        a.union(&b).into()
    }

    fn same(&self, other: &ListRecord) -> bool {
        let a = AscendingList::of_record(*self);
        let b = AscendingList::of_record(*other);
        a.same(&b)
    }

    fn count(&self) -> u16 {
        AscendingList::of_record(*self).count()
    }

    fn next_from(&self, from: u16) -> Option<u16> {
        AscendingList::of_record(*self).next_from(from)
    }
}
