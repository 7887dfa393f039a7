//! A set of numbers below 256 as a row of bits.

ghost use Rattle.sets.specs.BitRows.{members};
ghost use Rattle.sets.specs.FourWordsLemmas.{row_below, row_of_lem, row_of};
ghost use Rattle.std.proofs.Common.{rules};

use crate::four_words;
use crate::small_set::SmallSet;

/// A set of numbers below 256, quick by operations on whole words.
#[derive(Clone, Copy)]
pub struct BitRow {
    words: [u64; 4],
}

impl SmallSet for BitRow {
    const W: u16 = 256;

    ghost W = { 256 };

    ghost has = { members };

    ghost range = { Prim.search rules };

    ghost below = { λ s n h. row_below s.words n h };

    ghost every = { λ p. (record { words = row_of p }, λ n h. row_of_lem p n h) };

    fn empty() -> BitRow {
        BitRow {
            words: four_words::none(),
        }
    }

    fn insert(&mut self, n: u16) -> bool {
        let grows = n < Self::W && !self.contains(n);
        self.words = four_words::with(self.words, n);
        grows
    }

    fn contains(&self, n: u16) -> bool {
        four_words::has(&self.words, n)
    }

    fn union(&self, other: &BitRow) -> BitRow {
        BitRow {
            words: four_words::either(&self.words, &other.words),
        }
    }

    fn same(&self, other: &BitRow) -> bool {
        four_words::equal(&self.words, &other.words)
    }

    fn count(&self) -> u16 {
        four_words::ones(&self.words)
    }

    fn next_from(&self, from: u16) -> Option<u16> {
        four_words::first_from(&self.words, from)
    }
}
