//! What one line of the input asks for.

ghost use Rattle.std.specs.Prelude.{◌≡◌, Some};
ghost use Rattle.text.specs.Split.{told};
ghost use Rattle.closure_text.specs.Lines.{stage_of, request_of, reason_of, place_of};
ghost use Rattle.closure_text.specs.Reports.{fault_text};

use closure::silent_arcs::STAGES;
use std::error::Error;
use std::fmt;
use text::{Part, Parts, Place, number};

/// What a line asks for, if it is not skipped. A stage is written as a number word from 0 to 255.
#[derive(Clone, Copy, Debug, PartialEq, Eq)]
pub enum Request {
    /// `start STAGE`: an order may be at that stage.
    Start { stage: u16 },
    /// `arc FROM TO`: a silent arc leads from the one stage to the other.
    Arc { from: u16, to: u16 },
}

/// Why a line is refused, with the place of the word or, for a wrong count of words, of the line.
#[derive(Clone, Copy, Debug, PartialEq, Eq)]
pub enum LineFault {
    /// The first word is neither `start` nor `arc`.
    UnknownWord(Place),
    /// The line has more or fewer words than its first word asks for.
    WordCount(Place),
    /// The word is no number word from 0 to 255.
    NotStage(Place),
}

impl LineFault {
    /// The reason in words.
    pub fn reason(&self) -> &'static str
        ensures { result.now ≡ reason_of self.now }
    {
        match self {
            LineFault::UnknownWord(_) => "first word is not start or arc",
            LineFault::WordCount(_) => "not start STAGE or arc FROM TO",
            LineFault::NotStage(_) => "not a stage from 0 to 255",
        }
    }

    /// The place of what is wrong.
    pub fn place(&self) -> Place
        ensures { result ≡ place_of self.now }
    {
        match self {
            LineFault::UnknownWord(place)
            | LineFault::WordCount(place)
            | LineFault::NotStage(place) => *place,
        }
    }
}

impl fmt::Display for LineFault {
    ghost output = { λ f. Some (fault_text f) };

    fn fmt<W: fmt::Write>(&self, f: &mut fmt::Formatter<W>) -> fmt::Result {
        let Place { line, offset } = self.place();
        let reason = self.reason();
        write!(f, "line {line}, byte {offset}: {reason}")
    }
}

impl Error for LineFault {}

/// The stage that a word gives.
// `sheet` reads its words in the same way. One function for both would be told the range and the fault: no fewer lines.
fn stage(word: Part) -> Result<u16, LineFault>
    ensures { result ≡ stage_of (told word.entry) }
{
    number(word.text())
        .filter(|n| *n < STAGES)
        .ok_or(LineFault::NotStage(word.place))
}

/// What a line asks for, or why it is refused; nothing is asked for by an empty line and by one that begins with `#`.
pub fn read_line(line: Part) -> Result<Option<Request>, LineFault>
    ensures { result ≡ request_of (told line.entry) }
{
    if line.is_skipped() {
        return Ok(None);
    }
    let wrong_count = LineFault::WordCount(line.place);
    let mut words = Parts::words(line);
    let head = words.next().ok_or(wrong_count)?;
    match head.text() {
        b"start" => {
            let only = words.one().ok_or(wrong_count)?;
            let stage = stage(only)?;
            Ok(Some(Request::Start { stage }))
        }
        b"arc" => {
            let (first, second) = words.two().ok_or(wrong_count)?;
            let from = stage(first)?;
            let to = stage(second)?;
            Ok(Some(Request::Arc { from, to }))
        }
        _ => Err(LineFault::UnknownWord(head.place)),
    }
}
