//! Finite sets of small numbers: what a kind of set is, and two kinds.
//!
//! This crate knows nothing of what the numbers stand for. Code above it is written over any `SmallSet` and proved
//! from the trait's contracts alone.

#![tactic(auto)]

mod ascending_list;
pub mod bit_row;
mod four_words;
pub mod list_record;
pub mod small_set;
#[cfg(test)]
mod tests;
