//! Why a sheet is refused. Each fault holds its whole cause, and tells a number, a layer and a place.

#![tactic(auto)]

ghost use Rattle.std.specs.Prelude.{◌≡◌, Some};
ghost use Rattle.sheet_faults.specs.declared.LineFault.TheVariants.{Word as InWord};
ghost use Rattle.sheet_faults.specs.declared.SheetFault.TheVariants.{Line as InLine, Book as InBook};
ghost use Rattle.sheet_faults.specs.Faults.{word_number, word_place, line_number, line_place, declined_number, declined_place, sheet_number, layer_number, sheet_layer, sheet_place, fault_words};

use rules::BookFault;
use std::error::Error;
use std::fmt;
use text::Place;

/// A word that is not what its line needs there, with the word's place in the sheet.
#[derive(Clone, Copy, Debug, PartialEq, Eq)]
pub enum WordFault {
    /// The first word is none of `stage`, `drop`, `arc`, `cut` and `mark`.
    UnknownKeyword(Place),
    /// A later word is no number word: one to three digits, the first not 0 unless it is the only one.
    NotANumber(Place),
}

/// Why a line asks for no change that can be taken up.
#[derive(Clone, Copy, Debug, PartialEq, Eq)]
pub enum LineFault {
    /// One of its words is wrong.
    Word(WordFault),
    /// It has more or fewer words than its first word needs; with the place of the line.
    WordCount(Place),
    /// It asks for a 65th change; with the place of the line.
    TooManyChanges(Place),
}

/// A change that the rule book declines, with the place of the line that asks for it.
// `sheet::PlacedChange` has a place beside a change in the same way. One generic type for both would stand in another
// crate, and `Declined` has methods of its own.
#[derive(Clone, Copy, Debug, PartialEq, Eq)]
pub struct Declined {
    pub fault: BookFault,
    pub place: Place,
}

/// Why a sheet is refused. Reading gives the first two; the third is for the code that makes the changes.
#[derive(Clone, Copy, Debug, PartialEq, Eq)]
pub enum SheetFault {
    /// It has more than 4,096 bytes.
    TooLong,
    /// A line is wrong.
    Line(LineFault),
    /// The rule book declines a change.
    Book(Declined),
}

/// What refuses a sheet, with the number by which it is told.
#[derive(Clone, Copy, Debug, PartialEq, Eq)]
pub enum Layer {
    /// The reading of its text.
    Text = 1,
    /// The rule book.
    Book = 2,
}

/// For `?`: a wrong word makes its line wrong.
impl From<WordFault> for LineFault {
    ghost from_gives = { λ w r. r ≡ InWord w };

    fn from(fault: WordFault) -> LineFault {
        LineFault::Word(fault)
    }
}

/// For `?`: a wrong line has its sheet refused.
impl From<LineFault> for SheetFault {
    ghost from_gives = { λ l r. r ≡ InLine l };

    fn from(fault: LineFault) -> SheetFault {
        SheetFault::Line(fault)
    }
}

/// For `?`: a declined change has its sheet refused.
impl From<Declined> for SheetFault {
    ghost from_gives = { λ d r. r ≡ InBook d };

    fn from(fault: Declined) -> SheetFault {
        SheetFault::Book(fault)
    }
}

impl Layer {
    /// The number by which the layer is told: 1 or 2.
    pub fn number(self) -> u8
        ensures { result ≡ layer_number self }
    {
        self as u8
    }
}

// `WordFault`, `LineFault` and `SheetFault` give their numbers by a `match`, since a case can have a number of its own
// only in an enum none of whose cases holds anything.
impl WordFault {
    /// The number by which the fault is told: 12 or 14.
    pub fn number(&self) -> u8
        ensures { result ≡ word_number self.now }
    {
        match self {
            WordFault::UnknownKeyword(_) => 12,
            WordFault::NotANumber(_) => 14,
        }
    }

    /// The place of the word.
    pub fn place(&self) -> Place
        ensures { result ≡ word_place self.now }
    {
        match self {
            WordFault::UnknownKeyword(place) | WordFault::NotANumber(place) => *place,
        }
    }
}

impl LineFault {
    /// The number by which the fault is told: 12 to 15.
    pub fn number(&self) -> u8
        ensures { result ≡ line_number self.now }
    {
        match self {
            LineFault::Word(word) => word.number(),
            LineFault::WordCount(_) => 13,
            LineFault::TooManyChanges(_) => 15,
        }
    }

    /// The place of the wrong word or else of the line.
    pub fn place(&self) -> Place
        ensures { result ≡ line_place self.now }
    {
        match self {
            LineFault::Word(word) => word.place(),
            LineFault::WordCount(place) | LineFault::TooManyChanges(place) => *place,
        }
    }
}

impl Declined {
    /// The number by which the book's fault is told: 21 to 28.
    pub fn number(&self) -> u8
        ensures { result ≡ declined_number self.now }
    {
        self.fault.number()
    }

    /// The place of the line that asks for the change.
    pub fn place(&self) -> Place
        ensures { result ≡ declined_place self.now }
    {
        self.place
    }
}

impl SheetFault {
    /// The number by which the fault is told: 11 to 15 of the text, 21 to 28 of the book.
    pub fn number(&self) -> u8
        ensures { result ≡ sheet_number self.now }
    {
        match self {
            SheetFault::TooLong => 11,
            SheetFault::Line(line) => line.number(),
            SheetFault::Book(declined) => declined.number(),
        }
    }

    /// What refuses the sheet.
    pub fn layer(&self) -> Layer
        ensures { result ≡ sheet_layer self.now }
    {
        match self {
            SheetFault::TooLong | SheetFault::Line(_) => Layer::Text,
            SheetFault::Book(_) => Layer::Book,
        }
    }

    /// The place of the wrong word or line; line 0 and offset 0 where the sheet is too long, since then no line
    /// is read.
    pub fn place(&self) -> Place
        ensures { result ≡ sheet_place self.now }
    {
        match self {
            SheetFault::TooLong => Place { line: 0, offset: 0 },
            SheetFault::Line(line) => line.place(),
            SheetFault::Book(declined) => declined.place(),
        }
    }
}

/// A fault is told by its number, and the line and the offset of its place.
impl fmt::Display for SheetFault {
    ghost output = { λ f. Some (fault_words f) };

    fn fmt<W: fmt::Write>(&self, f: &mut fmt::Formatter<W>) -> fmt::Result {
        let number = self.number();
        let Place { line, offset } = self.place();
        write!(f, "{number} {line} {offset}")
    }
}

impl Error for SheetFault {}
