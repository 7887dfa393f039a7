//! A season's sheets, checked one after the other against the rule book that they leave.

#![tactic(auto)]

ghost use Rattle.std.specs.Prelude.{IfOk, string_bytes, OnOk};
ghost use Rattle.book.specs.Records.{rules_of};
ghost use Rattle.season_text.specs.Seasons.{sheets_of};
ghost use Rattle.season.specs.RoundTrip.{ReadsBack};
ghost use Rattle.season.specs.Answers.{SheetAnswered, Answered, Checked, Responds};

use book::Book;
use book_text::write_book;
use book_update::apply_sheet;
use season_text::{Sheets, events};
use std::alloc::{AllocError, Global};

mod round_trip;

use round_trip::canonical_text_reads_back;

/// Stages are numbered from 0 to 255.
const WIDTH: u16 = 256;

/// The answer to a season's text: a line for each sheet, `ok` and how many changes were made, or `no` and
/// the fault's number, line and offset in the sheet; then a line `book`; then the canonical text of the
/// book that the sheets leave. A text whose first line is no number of events is answered `no 1 0 0`. The
/// canonical text, read again, gives a book alike.
pub fn respond(heap: Global, input: &[u8]) -> Result<String, AllocError>
    ensures answer { IfOk result (λ s. Responds input.now (string_bytes s)) }
    ensures again { ReadsBack }
{
    canonical_text_reads_back();
    let Some(book) = events(input).and_then(Book::fresh) else {
        return String::from_str(heap, "no 1 0 0\n");
    };
    check_season(heap, book, input)
}

/// The answer to a season's sheets, begun with a book.
fn check_season(heap: Global, mut book: Book, input: &[u8]) -> Result<String, AllocError>
    ensures { IfOk result (λ s. Checked (rules_of book) (sheets_of input.now) (string_bytes s)) }
{
    let mut text = String::new(heap);
    check_sheets(&mut text, &mut book, input)?;
    let canonical = write_book(heap, &book)?;
    write!(text, "book\n{canonical}")?;
    Ok(text)
}

/// Applies each sheet to the book, and writes its answer.
fn check_sheets(text: &mut String, book: &mut Book, input: &[u8]) -> Result<(), AllocError>
    ensures { OnOk result (Answered (string_bytes text.old) (rules_of book.old) (sheets_of input.now) (string_bytes text.new) (rules_of book.new)) }
{
    for sheet in Sheets::of_season(input) {
        check_sheet(text, book, sheet)?;
    }
    Ok(())
}

/// Applies a sheet to the book, and writes its answer.
fn check_sheet(text: &mut String, book: &mut Book, sheet: &[u8]) -> Result<(), AllocError>
    ensures { OnOk result (SheetAnswered (string_bytes text.old) (rules_of book.old) sheet.now (string_bytes text.new) (rules_of book.new)) }
{
    match apply_sheet(book, WIDTH, sheet) {
        Ok(changes) => writeln!(text, "ok {changes}"),
        Err(fault) => writeln!(text, "no {fault}"),
    }
}
