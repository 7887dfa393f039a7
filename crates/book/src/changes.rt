//! The fresh book, and the five changes.

ghost use Rattle.std.specs.Prelude.{◌≡◌, ◌≤◌, min};
ghost use Rattle.rules.specs.Rules.{fresh as fresh_rules};
ghost use Rattle.rules.specs.declared.change.Change.TheVariants.{Stage as Staged, Drop as Dropped, Arc as Added, Cut, Mark};
ghost use Rattle.book.specs.Records.{rules_of, FreshPost, ChangePost, ends_answer};

use crate::record::{Book, Stage};
use rules::{Arc, BookFault, Change};

/// The stages that a change may name: those below `stages`, which are 256 at most.
#[derive(Clone, Copy)]
struct Bound {
    stages: u16,
    ghost within: { stages ≤ 256 },
}

impl Bound {
    /// The stages below a width, as far as a book has them.
    fn of_width(width: u16) -> Bound
        ensures { result.stages ≡ min width 256 }
    {
        Bound {
            stages: width.min(256),
        }
    }
}

impl Book {
    /// The book with so many events in which stage 0 is live with mark 0 and no arc stands; absent where
    /// the number of events is not from 1 to 15.
    pub fn fresh(events: u8) -> Option<Book>
        ensures { FreshPost events result }
    {
        if !(1..=15).contains(&events) {
            return None;
        }
        Some(Book::begun(events))
    }

    fn begun(events: u8) -> Book
        requires some { 1 ≤ events }
        requires few { events ≤ 15 }
        ensures { rules_of result ≡ fresh_rules events }
    {
        let mut stages = [Stage {
            live: false,
            mark: 0,
        }; 256];
        stages[0].live = true;
        Book {
            events,
            stages,
            arcs: [None; 1024],
            count: 0,
        }
    }

    /// Makes the change, if no condition stands against it; else nothing is altered. Stages are to be
    /// below `width`, and below 256.
    // The width is a number: a type for it would ask for more than any number.
    pub fn change(&mut self, width: u16, change: Change) -> Result<(), BookFault>
        ensures { ChangePost (min width 256) self.old change result self.new }
    {
        let bound = Bound::of_width(width);
        match change {
            Change::Stage { stage, mark } => self.add_stage(bound, stage, mark),
            Change::Drop { stage } => self.drop_stage(bound, stage),
            Change::Arc(arc) => self.add_arc(bound, arc),
            Change::Cut(arc) => self.cut_arc(bound, arc),
            Change::Mark { stage, mark } => self.set_mark(bound, stage, mark),
        }
    }

    fn add_stage(&mut self, bound: Bound, stage: u16, mark: u16) -> Result<(), BookFault>
        ensures { ChangePost bound.stages self.old (Staged stage mark) result self.new }
    {
        if stage >= bound.stages || mark > 7 {
            return Err(BookFault::OutOfRange);
        }
        if self.is_live(stage) {
            return Err(BookFault::LiveAlready);
        }
        self.stages[usize::from(stage)] = Stage {
            live: true,
            mark: mark as u8,
        };
        Ok(())
    }

    #[tactic(auto, using(crate::proofs::BookWrites::joined_meant))]
    fn drop_stage(&mut self, bound: Bound, stage: u16) -> Result<(), BookFault>
        ensures { ChangePost bound.stages self.old (Dropped stage) result self.new }
    {
        if stage >= bound.stages {
            return Err(BookFault::OutOfRange);
        }
        if !self.is_live(stage) {
            return Err(BookFault::NotLive);
        }
        if stage == 0 {
            return Err(BookFault::DropsStart);
        }
        if self.has_arcs(stage) {
            return Err(BookFault::HasArcs);
        }
        self.stages[usize::from(stage)].live = false;
        Ok(())
    }

    fn set_mark(&mut self, bound: Bound, stage: u16, mark: u16) -> Result<(), BookFault>
        ensures { ChangePost bound.stages self.old (Mark stage mark) result self.new }
    {
        if stage >= bound.stages || mark > 7 {
            return Err(BookFault::OutOfRange);
        }
        if !self.is_live(stage) {
            return Err(BookFault::NotLive);
        }
        self.stages[usize::from(stage)].mark = mark as u8;
        Ok(())
    }

    fn add_arc(&mut self, bound: Bound, arc: Arc) -> Result<(), BookFault>
        ensures { ChangePost bound.stages self.old (Added arc) result self.new }
    {
        self.check_ends(bound, arc)?;
        if self.has_arc(arc) {
            return Err(BookFault::ArcStands);
        }
        let place = self.place_of(None).ok_or(BookFault::BookFull)?;
        self.arcs[place] = Some(arc);
        self.count += 1;
        Ok(())
    }

    fn cut_arc(&mut self, bound: Bound, arc: Arc) -> Result<(), BookFault>
        ensures { ChangePost bound.stages self.old (Cut arc) result self.new }
    {
        self.check_ends(bound, arc)?;
        let place = self.place_of(Some(arc)).ok_or(BookFault::ArcAbsent)?;
        self.arcs[place] = None;
        self.count -= 1;
        Ok(())
    }

    /// What stands against the ends and the label of an arc that is added or cut.
    fn check_ends(&self, bound: Bound, arc: Arc) -> Result<(), BookFault>
        ensures { result ≡ ends_answer bound.stages (rules_of self.now) arc.from arc.label arc.to }
    {
        if arc.from >= bound.stages
            || arc.label > u16::from(self.events)
            || arc.to >= bound.stages
        {
            return Err(BookFault::OutOfRange);
        }
        if !self.is_live(arc.from) || !self.is_live(arc.to) {
            return Err(BookFault::NotLive);
        }
        Ok(())
    }
}
