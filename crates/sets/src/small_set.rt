//! What a kind of set is: its values mean sets of numbers below its width.

ghost use Rattle.std.specs.Prelude.{◌≡◌, ℕ, ◌<◌, ◌≤◌, Bool, true, false, not, ◌&&◌, ◌||◌, ◌↔◌, IsTrue, nat_lt};
ghost use Rattle.sets.specs.Members.{size, with_member, NextFrom, SameMembers};

/// A kind of set. Every contract gives its answer by `has`, the members; questions take `&self` and alter nothing.
pub trait SmallSet: Copy {
    /// The width: members are below it.
    const W: u16;

    /// The same number, for clauses, which cannot name a trait's constant. The check proves of each kind that the two
    /// are equal.
    ghost W: { ℕ };

    /// Whether a number is a member.
    ghost has: { Self → ℕ → Bool };

    /// The width, as a function.
    final fn width() -> u16
        ensures { result ≡ W }
    {
        Self::W
    }

    /// A new set, which has no members.
    fn empty() -> Self
        ensures { (n : ℕ) → has result n ≡ false };

    /// Adds `n` if it is below the width, else nothing. Answers whether the set grew.
    fn insert(&mut self, n: u16) -> bool
        ensures members { (k : ℕ) → has self.new k ≡ with_member W n (has self.old) k }
        ensures grew { result ≡ (nat_lt n W && not (has self.old n)) };

    /// Whether `n` is a member.
    fn contains(&self, n: u16) -> bool
        ensures { result ≡ has self.now n };

    /// All members of both.
    fn union(&self, other: &Self) -> Self
        ensures { (n : ℕ) → has result n ≡ (has self.now n || has other.now n) };

    /// Whether both have the same members. Two values that do may still differ in memory.
    fn same(&self, other: &Self) -> bool
        ensures { IsTrue result ↔ SameMembers (has self.now) (has other.now) };

    /// The number of members.
    fn count(&self) -> u16
        ensures { result ≡ size W (has self.now) };

    /// The least member not below `from`, if there is one.
    fn next_from(&self, from: u16) -> Option<u16>
        ensures { NextFrom (has self.now) from result };

    ghost range: { (1 ≤ W) × (W ≤ 256) };

    ghost below: { (s : Self) (n : ℕ) → has s n ≡ true → n < W };

    /// Every set of numbers below the width is the meaning of some value.
    ghost every: { (p : ℕ → Bool) → (s : Self) × ((n : ℕ) → n < W → has s n ≡ p n) };
}
