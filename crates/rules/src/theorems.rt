//! What is proved of rule books, their follow tables, images and reports. Each function does nothing:
//! that it is checked is the proof of the theorems that its contract names.

ghost use Rattle.rules.specs.Paths.{PathLaws};
ghost use Rattle.rules.specs.Table.{TableLaws};
ghost use Rattle.rules.specs.Alteration.{AlterationLaws};
ghost use Rattle.rules.specs.Order.{OrderLaws};
ghost use Rattle.rules.specs.Turn.{TurnLaws};
ghost use Rattle.rules.specs.Image.{ImageLaws};
ghost use Rattle.rules.specs.Report.{ReportLaws};
ghost use Rattle.rules.specs.Changes.{ChangeLaws};

/// The set of stages that a list of events reaches grows event by event: it begins with what silent arcs
/// reach from stage 0, and each further event takes the exit. So whoever holds that set needs to know
/// nothing else of the events so far.
#[tactic(auto, using(crate::proofs::Laws::path_laws))]
pub fn path_laws_hold()
    ensures { PathLaws }
{}

/// A table whose rows and distances are right is the subset construction of its book: a list of events
/// leads to the one row with the set that it reaches, nowhere exactly if it reaches nothing, and the
/// distance of a row is the length of the shortest list to it. Two ways to see that a table is right: by
/// its distances row by row, and by leaving out the rows to which no list leads.
#[tactic(auto, using(crate::proofs::Laws::table_laws))]
pub fn table_laws_hold()
    ensures { TableLaws }
{}

/// An update turns nothing that its altered arcs do not name: the exit of a kept set by an event stays,
/// and so does the step from its row. Which pairs of a set and an event are named does not depend on
/// whether the exit before the update is asked for or the exit after it.
#[tactic(auto, using(crate::proofs::Laws::alteration_laws))]
pub fn alteration_laws_hold()
    ensures { AlterationLaws }
{}

/// The reached sets have one order, by the first list that reaches each: books that reach the same sets
/// by the same lists have the same first lists, and each set has only one.
#[tactic(auto, using(crate::proofs::Laws::order_laws))]
pub fn order_laws_hold()
    ensures { OrderLaws }
{}

/// A search that takes the rows in the order in which it finds them, and the events ascending, finds
/// every row, and puts them in the order of their first lists.
#[tactic(auto, using(crate::proofs::Laws::turn_laws))]
pub fn turn_laws_hold()
    ensures { TurnLaws }
{}

/// A book has one image, two images are equal exactly if their books tell the same, and each bit of an
/// image has its place.
#[tactic(auto, using(crate::proofs::Laws::image_laws))]
pub fn image_laws_hold()
    ensures { ImageLaws }
{}

/// The counts of a report are those of sets and pairs of a set and an event, one report for two books,
/// and they may be counted over the rows of two tables. There are as many reached sets as rows in use.
#[tactic(auto, using(crate::proofs::Laws::report_laws))]
pub fn report_laws_hold()
    ensures { ReportLaws }
{}

/// A fresh book is well formed, a change is declined exactly if it may not be made, and a book that is
/// changed is well formed again.
#[tactic(auto, using(crate::proofs::Conditions::change_laws))]
pub fn change_laws_hold()
    ensures { ChangeLaws }
{}
