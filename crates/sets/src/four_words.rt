//! A row of 256 bits in four words, worked on word by word: number `n` is in the row where bit `n % 64` of word
//! `n / 64` is set. Each function has the proof of what a method of `BitRow` answers. The method only calls it, and so
//! a wrong method is refused at its own lines.

ghost use Rattle.std.specs.Prelude.{◌≡◌, ℕ, false, not, ◌||◌, ◌==◌, ◌↔◌, IsTrue, position};
ghost use Rattle.sets.specs.Members.{size, with_member, SameMembers, NextFrom};
ghost use Rattle.sets.specs.FourWords.{in_row};

use std::array;

/// The row of no numbers.
pub fn none() -> [u64; 4]
    ensures { (n : ℕ) → in_row result n ≡ false }
{
    [0; 4]
}

/// Whether `n` is in the row.
pub fn has(words: &[u64; 4], n: u16) -> bool
    ensures { result ≡ in_row words.now n }
{
    n < 256 && (words[usize::from(n / 64)] >> (n % 64)) & 1 == 1
}

/// The row with `n`, if that is below 256.
pub fn with(mut words: [u64; 4], n: u16) -> [u64; 4]
    ensures { (k : ℕ) → in_row result k ≡ with_member 256 n (in_row words) k }
{
    if n < 256 {
        words[usize::from(n / 64)] |= 1 << (n % 64);
    }
    words
}

/// What is in one of two rows.
pub fn either(a: &[u64; 4], b: &[u64; 4]) -> [u64; 4]
    ensures { (n : ℕ) → in_row result n ≡ (in_row a.now n || in_row b.now n) }
{
    array::from_fn(|i| a[i] | b[i])
}

/// Whether the same numbers are in both rows.
pub fn equal(a: &[u64; 4], b: &[u64; 4]) -> bool
    ensures { IsTrue result ↔ SameMembers (in_row a.now) (in_row b.now) }
{
    a == b
}

/// How many numbers are in the row.
pub fn ones(words: &[u64; 4]) -> u16
    ensures { result ≡ size 256 (in_row words.now) }
{
    words.iter().map(|word| word.count_ones() as u16).sum()
}

/// The least number in the row that is not below `from`, if there is one.
pub fn first_from(words: &[u64; 4], from: u16) -> Option<u16>
    ensures { NextFrom (in_row words.now) from result }
{
    let start = usize::from(from / 64);
    let rest = words.get(start)? >> (from % 64);
    if rest != 0 {
        return Some(from + rest.trailing_zeros() as u16);
    }
    let i = start + 1 + first_nonzero(&words[start + 1..])?;
    Some(i as u16 * 64 + words[i].trailing_zeros() as u16)
}

/// The place of the first word that is not 0.
fn first_nonzero(words: &[u64]) -> Option<usize>
    ensures { result ≡ position (λ w. not (w == 0)) words.now }
{
    words.iter().position(|word| *word != 0)
}
