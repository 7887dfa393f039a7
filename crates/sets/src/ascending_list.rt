//! A list of numbers below 64 in strictly ascending order. Its type carries the order and the bound, so no list ever
//! holds a member twice or out of order; a list is changed by value and written whole.

ghost use Rattle.std.specs.Prelude.{◌≡◌, ℕ, ◌<◌, ◌≤◌, true, false, ◌||◌, ◌==◌, ◌↔◌, IsTrue, IfSome};
ghost use Rattle.sets.specs.Members.{size, with_member, SameMembers, NextFrom};
ghost use Rattle.sets.specs.ListRecords.{listed, passes, members, RestIsZero};

use crate::list_record::ListRecord;

/// A record that passes the check.
#[derive(Clone, Copy)]
pub struct AscendingList {
    record: ListRecord,
    ghost ascends: { IsTrue (passes «record») },
}

impl AscendingList {
    /// The list without members.
    pub fn empty() -> AscendingList
        ensures members { (n : ℕ) → members result.record n ≡ false }
        ensures rest { RestIsZero result.record }
    {
        AscendingList {
            record: ListRecord {
                len: 0,
                items: [0; 64],
            },
        }
    }

    /// The list of a record that passes the check, and else the empty list: so it is no `From`, which keeps what it is
    /// given.
    pub fn of_record(plain: ListRecord) -> AscendingList
        ensures members { (n : ℕ) → members result.record n ≡ members plain n }
        ensures kept { IsTrue (passes plain) → result.record ≡ plain }
        ensures emptied { passes plain ≡ false → RestIsZero result.record }
    {
        if plain.passes_check() {
            AscendingList { record: plain }
        } else {
            AscendingList::empty()
        }
    }

    /// The members in order.
    pub fn as_slice(&self) -> &[u8]
        ensures { result.now ≡ listed self.now.record }
    {
        &self.record.items[..usize::from(self.record.len)]
    }

    /// The least member not below `from`, if there is one. By halving.
    pub fn next_from(&self, from: u16) -> Option<u16>
        ensures next { NextFrom (members self.now.record) from result }
        ensures small { IfSome result (λ n. n < 64) }
    {
        let list = self.as_slice();
        let at = list.partition_point(|x| u16::from(*x) < from);
        let next = *list.get(at)?;
        Some(u16::from(next))
    }

    /// Whether `n` is a member.
    pub fn contains(&self, n: u16) -> bool
        ensures { result ≡ members self.now.record n }
    {
        self.next_from(n) == Some(n)
    }

    /// The number of members.
    pub fn count(&self) -> u16
        ensures { result ≡ size 64 (members self.now.record) }
    {
        u16::from(self.record.len)
    }

    /// Whether both have the same members: then they have the same items.
    pub fn same(&self, other: &AscendingList) -> bool
        ensures { IsTrue result ↔ SameMembers (members self.now.record) (members other.now.record) }
    {
        self.as_slice() == other.as_slice()
    }

    /// The list with `n`, which is above its members, at its end.
    fn appended(self, n: u8) -> AscendingList
        requires small { n < 64 }
        requires above { (k : ℕ) → members self.record k ≡ true → k < n }
        ensures members { (k : ℕ) → members result.record k ≡ (members self.record k || k == n) }
        ensures rest { RestIsZero self.record → RestIsZero result.record }
    {
        let ListRecord { len, mut items } = self.record;
        items[usize::from(len)] = n;
        AscendingList {
            record: ListRecord {
                len: len + 1,
                items,
            },
        }
    }

    /// The least member of either list that is not below `from`, if there is one.
    fn next_of_either(&self, other: &AscendingList, from: u16) -> Option<u16>
        ensures next { NextFrom (λ n. members self.now.record n || members other.now.record n) from result }
        ensures small { IfSome result (λ n. n < 64) }
    {
        match (self.next_from(from), other.next_from(from)) {
            (Some(a), Some(b)) => Some(a.min(b)),
            (Some(n), None) | (None, Some(n)) => Some(n),
            (None, None) => None,
        }
    }

    /// All members of both: the least of what is left of the two, again and again. What comes next depends on both
    /// lists, so it is asked for, and is no walk over one of them.
    pub fn union(&self, other: &AscendingList) -> AscendingList
        ensures members { (k : ℕ) → members result.record k ≡ (members self.now.record k || members other.now.record k) }
        ensures rest { RestIsZero result.record }
    {
        let mut out = AscendingList::empty();
        let mut from = 0;
        while let Some(n) = self.next_of_either(other, from) {
            out = out.appended(n as u8);
            from = n + 1;
        }
        out
    }

    /// The list with `n`, if that is below 64.
    pub fn with(self, n: u16) -> AscendingList
        ensures members { (k : ℕ) → members result.record k ≡ with_member 64 n (members self.record) k }
        ensures rest { n < 64 → RestIsZero result.record }
        ensures unaltered { 64 ≤ n → result ≡ self }
    {
        if n >= 64 {
            return self;
        }
        let one = AscendingList::empty().appended(n as u8);
        self.union(&one)
    }
}

impl From<AscendingList> for ListRecord {
    ghost from_gives = { λ list result. result ≡ list.record };

    fn from(list: AscendingList) -> ListRecord {
        list.record
    }
}
