//! The record of a rule book, and its five changes.
#![tactic(auto)]

mod changes;
mod questions;
mod record;
#[cfg(test)]
mod tests;

pub use record::Book;
