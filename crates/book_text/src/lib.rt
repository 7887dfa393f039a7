//! The canonical text of a book: one text for all books that are alike.
#![tactic(auto)]

mod changes;
#[cfg(test)]
mod tests;
mod writing;

pub use changes::canonical_changes;
pub use writing::write_book;
