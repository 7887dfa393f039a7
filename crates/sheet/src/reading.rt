//! A whole sheet, read line by line.

ghost use Rattle.std.specs.Prelude.{◌≡◌, [], Ok, Err, MatchResult};
ghost use Rattle.text.specs.Split.{told, lines};
ghost use Rattle.text.specs.Outcomes.{over};
ghost use Rattle.sheet.specs.Laws.{ReadExactly};
ghost use Rattle.sheet.specs.Sheets.{placed_of, items_of, pushed, sheet_from, sheet_of};

use crate::changes::{Changes, PlacedChange};
use crate::line::read_line;
use rules::{Change, MAX_CHANGES};
use sheet_faults::{LineFault, SheetFault};
use text::{Part, Parts, Place};

/// The most bytes that a sheet may have.
pub const MAX_BYTES: usize = 4_096;

impl Changes {
    /// No changes.
    fn new() -> Changes
        ensures { items_of result ≡ [] }
    {
        let unused = PlacedChange {
            change: Change::Drop { stage: 0 },
            place: Place { line: 0, offset: 0 },
        };
        Changes {
            items: [unused; MAX_CHANGES],
            count: 0,
        }
    }

    /// The changes in their order.
    pub fn as_slice(&self) -> &[PlacedChange]
        ensures { result.now ≡ items_of self.now }
    {
        &self.items[..self.count]
    }

    /// Adds a change behind the others; a 65th is refused, and nothing altered.
    fn push(&mut self, item: PlacedChange) -> Result<(), LineFault>
        ensures { MatchResult result (λ _. pushed (items_of self.old) item ≡ Ok (items_of self.new)) (λ e. (pushed (items_of self.old) item ≡ Err e) × (self.new ≡ self.old)) }
    {
        if self.count >= MAX_CHANGES {
            return Err(LineFault::TooManyChanges(item.place));
        }
        self.items[self.count] = item;
        self.count += 1;
        Ok(())
    }
}

/// The change that a line asks for, with the line's place.
fn read_change(line: Part) -> Result<PlacedChange, LineFault>
    ensures { result ≡ placed_of (told line.entry) }
{
    let change = read_line(line)?.change()?;
    Ok(PlacedChange {
        change,
        place: line.place,
    })
}

/// The changes that the lines of a sheet ask for, or the first fault.
fn read_lines(sheet: &[u8]) -> Result<Changes, LineFault>
    ensures { over items_of result ≡ sheet_from [] (lines sheet.now) }
{
    let mut changes = Changes::new();
    for line in Parts::lines(sheet) {
        if !line.is_skipped() {
            changes.push(read_change(line)?)?;
        }
    }
    Ok(changes)
}

/// The changes that a sheet asks for, or its first fault. A sheet of more than 4,096 bytes is refused before any
/// of its lines is looked at. So a sheet is read, with certain changes, exactly if it is short enough and its lines
/// that are not skipped are the lines of those changes, at most 64.
pub fn read_sheet(sheet: &[u8]) -> Result<Changes, SheetFault>
    ensures is { over items_of result ≡ sheet_of sheet.now }
    ensures exactly { ReadExactly }
{
    sheets_are_read_exactly();
    if sheet.len() > MAX_BYTES {
        return Err(SheetFault::TooLong);
    }
    Ok(read_lines(sheet)?)
}

/// What it means that a sheet is read, as a lemma: this function does nothing.
fn sheets_are_read_exactly()
    ensures { ReadExactly }
{}
