//! A sheet applied to a rule book: all of its changes are made, or none.

#![tactic(auto)]

ghost use Rattle.std.specs.Prelude.{◌≡◌, min, Ok, Err, MatchResult};
ghost use Rattle.book.specs.Records.{rules_of};
ghost use Rattle.book_update.specs.Updates.{applied, SheetPost};

use book::Book;
use sheet::{PlacedChange, read_sheet};
use sheet_faults::{Declined, SheetFault};

/// Reads the whole sheet, then makes its changes in order, each checked against the book as the earlier
/// ones left it; stages are to be below `width`, and below 256. Answers how many changes were made. Where
/// the sheet is refused the book is as it was.
pub fn apply_sheet(book: &mut Book, width: u16, sheet: &[u8]) -> Result<usize, SheetFault>
    ensures { SheetPost (min width 256) book.old sheet.now result book.new }
{
    let changes = read_sheet(sheet)?;
    let mut next = *book;
    make_changes(&mut next, width, changes.as_slice())?;
    *book = next;
    Ok(changes.as_slice().len())
}

/// Makes the changes one after the other, up to the first that is declined.
fn make_changes(book: &mut Book, width: u16, changes: &[PlacedChange]) -> Result<(), Declined>
    ensures { MatchResult result (λ _. applied (min width 256) (rules_of book.old) changes.now ≡ Ok (rules_of book.new)) (λ e. applied (min width 256) (rules_of book.old) changes.now ≡ Err e) }
{
    for placed in changes {
        book.change(width, placed.change).map_err(|fault| Declined {
            fault,
            place: placed.place,
        })?;
    }
    Ok(())
}

#[cfg(test)]
mod tests;
