//! What a sheet may ask of a rule book, and why the book may decline it.

ghost use Rattle.std.specs.Prelude.{◌≡◌, Some};
ghost use Rattle.rules.specs.Changes.{fault_number};
ghost use Rattle.rules.specs.ChangeLines.{arc_text, change_line};

use std::fmt;

/// The most changes that a sheet may ask for.
pub const MAX_CHANGES: usize = 64;

/// An arc of a rule book: it leads from a stage to a stage by the event that is its label or, where the
/// label is 0, silently. Arcs are in the order of from stage, label and to stage.
#[derive(Clone, Copy, Debug, PartialEq, Eq, PartialOrd, Ord)]
pub struct Arc {
    pub from: u16,
    pub label: u16,
    pub to: u16,
}

impl fmt::Display for Arc {
    ghost output = { λ a. Some (arc_text a) };

    fn fmt<W: fmt::Write>(&self, f: &mut fmt::Formatter<W>) -> fmt::Result {
        let Arc { from, label, to } = self;
        write!(f, "{from} {label} {to}")
    }
}

/// One change of a rule book. Stages, labels and marks are as the sheet has them: whether they are in
/// range is for the book to say.
// No struct for a stage and its mark: the two functions of `book` that make a stage and set a mark would use it, and it
// would say no more than the two fields.
#[derive(Clone, Copy, Debug, PartialEq, Eq)]
pub enum Change {
    /// Makes a stage live, with a mark.
    Stage { stage: u16, mark: u16 },
    /// Makes a stage not live.
    Drop { stage: u16 },
    /// Adds an arc.
    Arc(Arc),
    /// Removes an arc.
    Cut(Arc),
    /// Replaces the mark of a live stage.
    Mark { stage: u16, mark: u16 },
}

/// The change as the line of a sheet, without the byte that ends it.
impl fmt::Display for Change {
    ghost output = { λ change. Some (change_line change) };

    fn fmt<W: fmt::Write>(&self, f: &mut fmt::Formatter<W>) -> fmt::Result {
        match self {
            Change::Stage { stage, mark } => write!(f, "stage {stage} {mark}"),
            Change::Drop { stage } => write!(f, "drop {stage}"),
            Change::Arc(arc) => write!(f, "arc {arc}"),
            Change::Cut(arc) => write!(f, "cut {arc}"),
            Change::Mark { stage, mark } => write!(f, "mark {stage} {mark}"),
        }
    }
}

/// Why a rule book declines a change, in the order in which the conditions are looked for. Each has the
/// number by which it is told.
#[derive(Clone, Copy, Debug, PartialEq, Eq)]
pub enum BookFault {
    /// A stage not below the width, a label that is no event nor 0, or a mark above 7.
    OutOfRange = 21,
    /// `stage` on a live stage.
    LiveAlready = 23,
    /// Another change's stage is not live.
    NotLive = 22,
    /// `drop` of stage 0.
    DropsStart = 24,
    /// The dropped stage has arcs.
    HasArcs = 25,
    /// The added arc stands already.
    ArcStands = 26,
    /// The arc to remove does not stand.
    ArcAbsent = 27,
    /// An arc added where 1,024 stand.
    BookFull = 28,
}

impl BookFault {
    /// The number by which the fault is told.
    pub fn number(&self) -> u8
        ensures { result ≡ fault_number self.now }
    {
        *self as u8
    }
}
