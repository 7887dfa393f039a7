//! Reads a sheet: the text that asks for changes to a rule book. `read_sheet` gives the changes in order, each with
//! the place of its line, or the first fault.
//!
//! A sheet has at most 4,096 bytes. Its lines end with byte 10, which the last may lack. Empty lines and lines that
//! begin with `#` are skipped, but counted. Any other line asks for one change, and at most 64 may be asked for. Its
//! words stand between single spaces, so that two spaces in a row have an empty word between them:
//!
//!     stage STAGE MARK
//!     drop STAGE
//!     arc FROM LABEL TO
//!     cut FROM LABEL TO
//!     mark STAGE MARK
//!
//! The words behind the first are number words: one to three digits, the first not 0 unless it is the only one.
//! Whether a number is in range is for the rule book to say.
//!
//! Every `Place` is of the whole sheet: its line from 1, and its offset in bytes from the start of the sheet, from 0.

#![tactic(auto)]

mod changes;
mod line;
mod reading;
#[cfg(test)]
mod tests;

pub use changes::{Changes, PlacedChange};
pub use line::{Line, read_line};
pub use reading::{MAX_BYTES, read_sheet};
pub use rules::MAX_CHANGES;
