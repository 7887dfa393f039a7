//! The text of a season: the number of events on the first line, and then sheets, each the lines before a
//! line `end`. Lines after the last line `end` belong to no sheet.

#![tactic(auto)]

ghost use Rattle.std.specs.Prelude.{option_map, ◌≡◌, ◌≤◌, [], ◌∷◌, length, IfSome, codes, MatchOption};
ghost use Rattle.std.specs.Iterator.{item_count};
ghost use Rattle.std.specs.List.{find};
ghost use Rattle.std.specs.Str.{bytes_eq};
ghost use Rattle.text.specs.Giving.{GivesFirst};
ghost use Rattle.text.specs.Split.{lines, told};
ghost use Rattle.season_text.specs.Seasons.{line_texts, events_of, sheets_in, sheets_of, end_at, left};

use text::{Part, Parts, number, tail};

mod sheets;

pub use sheets::Sheets;

/// The number of events that the first line gives: a number word from 1 to 15. Absent for any other line.
pub fn events(text: &[u8]) -> Option<u8>
    ensures { result ≡ events_of (line_texts text.now) }
{
    let first = Parts::lines(text).next()?;
    match number(first.text())? {
        n @ 1..=15 => Some(n as u8),
        _ => None,
    }
}

impl<'a> Sheets<'a> {
    /// The sheets of a season's text: those of the lines after the first.
    pub fn of_season(text: &'a [u8]) -> Sheets<'a>
        ensures { left result ≡ sheets_of text.now }
    {
        Sheets {
            rest: after_first_line(text),
        }
    }
}

impl<'a> Iterator for Sheets<'a> {
    type Item = &'a [u8];

    ghost next_gives = { GivesFirst (λ s. s.now) left };

    ghost remaining = { item_count left };

    /// The next sheet, or none after the last.
    fn next(&mut self) -> Option<&'a [u8]> {
        let (sheet, after) = first_sheet(self.rest)?;
        self.rest = after;
        Some(sheet)
    }
}

/// The first sheet, and what stands after its line `end`.
fn first_sheet(text: &[u8]) -> Option<(&[u8], &[u8])>
    ensures { MatchOption result (sheets_in text.now ≡ []) (λ p. p.0.now ∷ sheets_in p.1.now ≡ sheets_in text.now) }
{
    let (sheet, after) = text.split_at(end_line(text)?);
    Some((sheet, after_first_line(after)))
}

/// What stands after the first line and its byte 10.
fn after_first_line(text: &[u8]) -> &[u8]
    ensures { sheets_in result.now ≡ sheets_of text.now }
{
    let Some(first) = Parts::lines(text).next() else {
        return &[];
    };
    tail(text, first.text().len() + 1)
}

/// The offset of the first line `end`.
fn end_line(text: &[u8]) -> Option<usize>
    ensures is { result ≡ end_at (lines text.now) }
    ensures within { IfSome result (λ at. at ≤ length text.now) }
{
    first_end(text).map(|line| line.place.offset)
}

/// The first line `end`.
fn first_end(text: &[u8]) -> Option<Part>
    ensures { option_map told result ≡ find (λ l. bytes_eq l.text (codes "end")) (lines text.now) }
{
    Parts::lines(text).find(|line| line.text() == b"end".as_slice())
}

#[cfg(test)]
mod tests;
