//! The canonical text.

ghost use Rattle.std.specs.Prelude.{◌≡◌, ◌++◌, IfOk, string_bytes, OnOk};
ghost use Rattle.std.specs.List.{flat_map};
ghost use Rattle.book.specs.Records.{rules_of};
ghost use Rattle.book_text.specs.Canonical.{line_text, CanonicalText, CanonicalLaws};

use crate::changes::canonical_changes;
use book::Book;
use rules::{Change, MAX_CHANGES};
use std::alloc::{AllocError, Global};

/// The canonical text of a book: the number of events on the first line, and then the changes that make
/// the book of a fresh one, in sheets, each with a line `end` after it.
#[tactic(auto, using(crate::proofs::Rebuilding::canonical_laws))]
pub fn write_book(heap: Global, book: &Book) -> Result<String, AllocError>
    ensures text { IfOk result (λ s. CanonicalText (rules_of book.now) (string_bytes s)) }
    ensures laws { CanonicalLaws }
{
    written(heap, book)
}

fn written(heap: Global, book: &Book) -> Result<String, AllocError>
    ensures { IfOk result (λ s. CanonicalText (rules_of book.now) (string_bytes s)) }
{
    let changes = canonical_changes(heap, book)?;
    let events = book.events();
    let mut text = format!(in heap; "{events}\n")?;
    for sheet in changes.chunks(MAX_CHANGES) {
        write_lines(&mut text, sheet)?;
        text.push_str("end\n")?;
    }
    Ok(text)
}

/// Writes the lines of changes.
fn write_lines(text: &mut String, changes: &[Change]) -> Result<(), AllocError>
    ensures { OnOk result (string_bytes text.new ≡ string_bytes text.old ++ flat_map line_text changes.now) }
{
    for change in changes {
        writeln!(text, "{change}")?;
    }
    Ok(())
}
