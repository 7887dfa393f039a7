//! The sheets that are still to come.

/// The sheets of a season's text that are still to come, in order: those that `rest` has.
#[derive(Clone, Copy)]
pub struct Sheets<'a> {
    pub(crate) rest: &'a [u8],
}
