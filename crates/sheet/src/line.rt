//! One line of a sheet, from its words to the change that it asks for.

ghost use Rattle.std.specs.Prelude.{◌≡◌, option_map};
ghost use Rattle.text.specs.Split.{told, left};
ghost use Rattle.text.specs.Outcomes.{over};
ghost use Rattle.sheet.specs.Lines.{told_line, keyword_of, form_of, line_of, number_of_word, arc_of, numbered, change_of};

use rules::{Arc, Change};
use sheet_faults::{LineFault, WordFault};
use text::{Part, Parts, number};

/// A line of the right form. It borrows its words from the sheet; whether they are number words is not yet known.
// Its cases are those of `Change`, with words in place of numbers, and each has its words by name: no struct for an arc's
// three words. One enum for both would have a type parameter in every definition of the theory of changes, which knows
// no words.
#[derive(Clone, Copy)]
pub enum Line<'a> {
    /// `stage STAGE MARK`
    Stage {
        stage: Part<'a>,
        mark: Part<'a>,
    },
    /// `drop STAGE`
    Drop {
        stage: Part<'a>,
    },
    /// `arc FROM LABEL TO`
    Arc {
        from: Part<'a>,
        label: Part<'a>,
        to: Part<'a>,
    },
    /// `cut FROM LABEL TO`
    Cut {
        from: Part<'a>,
        label: Part<'a>,
        to: Part<'a>,
    },
    /// `mark STAGE MARK`
    Mark {
        stage: Part<'a>,
        mark: Part<'a>,
    },
}

/// The words that a line may begin with. An enum of its own: such a word is known before the others are looked at.
#[derive(Clone, Copy, Debug, PartialEq, Eq)]
pub(crate) enum Keyword {
    Stage,
    Drop,
    Arc,
    Cut,
    Mark,
}

impl<'a> TryFrom<Part<'a>> for Keyword {
    type Error = WordFault;

    ghost try_from_gives = { λ word r. r ≡ keyword_of (told word) };

    fn try_from(word: Part<'a>) -> Result<Keyword, WordFault> {
        match word.text() {
            b"stage" => Ok(Keyword::Stage),
            b"drop" => Ok(Keyword::Drop),
            b"arc" => Ok(Keyword::Arc),
            b"cut" => Ok(Keyword::Cut),
            b"mark" => Ok(Keyword::Mark),
            _ => Err(WordFault::UnknownKeyword(word.place)),
        }
    }
}

/// The line that begins with this keyword, from the words behind it. Absent if they are too few or too many.
fn read_form<'a>(keyword: Keyword, words: Parts<'a>) -> Option<Line<'a>>
    ensures { option_map told_line result ≡ form_of (left words.entry) keyword }
{
    match keyword {
        Keyword::Stage => words.two().map(|(stage, mark)| Line::Stage { stage, mark }),
        Keyword::Drop => words.one().map(|stage| Line::Drop { stage }),
        Keyword::Arc => words
            .three()
            .map(|(from, label, to)| Line::Arc { from, label, to }),
        Keyword::Cut => words
            .three()
            .map(|(from, label, to)| Line::Cut { from, label, to }),
        Keyword::Mark => words.two().map(|(stage, mark)| Line::Mark { stage, mark }),
    }
}

/// The form of a line that is not skipped: its first word is a keyword, and so many words follow as that one needs.
pub fn read_line<'a>(line: Part<'a>) -> Result<Line<'a>, LineFault>
    ensures { over told_line result ≡ line_of (told line.entry) }
{
    let wrong_count = LineFault::WordCount(line.place);
    let mut words = Parts::words(line);
    let first = words.next().ok_or(wrong_count)?;
    let keyword = Keyword::try_from(first)?;
    read_form(keyword, words).ok_or(wrong_count)
}

/// The number that a word is.
fn number_at(word: Part) -> Result<u16, WordFault>
    ensures { result ≡ number_of_word (told word.entry) }
{
    number(word.text()).ok_or(WordFault::NotANumber(word.place))
}

/// The arc that three words give.
fn arc_at(from: Part, label: Part, to: Part) -> Result<Arc, WordFault>
    ensures { result ≡ arc_of (told from.entry) (told label.entry) (told to.entry) }
{
    let from = number_at(from)?;
    let label = number_at(label)?;
    let to = number_at(to)?;
    Ok(Arc { from, label, to })
}

impl<'a> Line<'a> {
    /// The change that the line asks for. Its first word that is no number word is the fault.
    // A method and no `TryFrom`: `line.change()?` says at the call what is asked for.
    pub fn change(self) -> Result<Change, LineFault>
        ensures { result ≡ change_of (told_line self.entry) }
    {
        Ok(self.numbered()?)
    }

    fn numbered(self) -> Result<Change, WordFault>
        ensures { result ≡ numbered (told_line self.entry) }
    {
        match self {
            Line::Stage { stage, mark } => {
                let stage = number_at(stage)?;
                let mark = number_at(mark)?;
                Ok(Change::Stage { stage, mark })
            }
            Line::Drop { stage } => {
                let stage = number_at(stage)?;
                Ok(Change::Drop { stage })
            }
            Line::Arc { from, label, to } => {
                let arc = arc_at(from, label, to)?;
                Ok(Change::Arc(arc))
            }
            Line::Cut { from, label, to } => {
                let arc = arc_at(from, label, to)?;
                Ok(Change::Cut(arc))
            }
            Line::Mark { stage, mark } => {
                let stage = number_at(stage)?;
                let mark = number_at(mark)?;
                Ok(Change::Mark { stage, mark })
            }
        }
    }
}
