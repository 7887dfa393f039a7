//! What a book can be asked.

ghost use Rattle.std.specs.Prelude.{◌≡◌, ℕ, length, position};
ghost use Rattle.rules.specs.Rules.{WellFormed, standing};
ghost use Rattle.book.specs.Records.{LiveBelow, rules_of};
ghost use Rattle.book.specs.Slots.{arcs_in, joined, Once, same_slot};

use crate::record::Book;
use rules::Arc;

impl Book {
    /// How many events there are. Every book is well formed: its live stages are below 256, and whatever
    /// narrower width they are below, it is well formed for that too.
    pub fn events(&self) -> u8
        ensures is { result ≡ (rules_of self.now).events }
        ensures low { LiveBelow 256 (rules_of self.now) }
        ensures formed { (W : ℕ) → LiveBelow W (rules_of self.now) → WellFormed W (rules_of self.now) }
    {
        self.laws_hold();
        self.events
    }

    /// Whether the stage is live.
    pub fn is_live(&self, stage: u16) -> bool
        ensures { result ≡ (rules_of self.now).live stage }
    {
        self.stages
            .get(usize::from(stage))
            .is_some_and(|stage| stage.live)
    }

    /// The mark of a live stage. That of a stage which is not live means nothing.
    // No `Option`: the contract is an equation with `rules_of`, whose mark is a number for every stage.
    pub fn mark_of(&self, stage: u16) -> u8
        ensures { result ≡ (rules_of self.now).mark stage }
    {
        self.stages
            .get(usize::from(stage))
            .map_or(0, |stage| stage.mark)
    }

    /// Whether the arc stands.
    pub fn has_arc(&self, arc: Arc) -> bool
        ensures { result ≡ (rules_of self.now).arc arc.from arc.label arc.to }
    {
        self.arcs.contains(&Some(arc))
    }

    /// The slots, in which all the arcs stand and each but once.
    pub fn slots(&self) -> &[Option<Arc>]
        ensures arcs { arcs_in result.now ≡ (rules_of self.now).arc }
        ensures once { Once result.now }
        ensures all { length result.now ≡ 1024 }
    {
        &self.arcs
    }

    /// How many arcs stand.
    pub fn arc_count(&self) -> u16
        ensures { result ≡ standing (rules_of self.now) }
    {
        self.laws_hold();
        self.count
    }

    /// What the ghost field means: the book is well formed, and the count is right.
    fn laws_hold(&self)
        ensures low { LiveBelow 256 (rules_of self.now) }
        ensures formed { (W : ℕ) → LiveBelow W (rules_of self.now) → WellFormed W (rules_of self.now) }
        ensures counted { self.now.count ≡ standing (rules_of self.now) }
    {}

    /// Whether an arc leaves or enters the stage.
    // With `iter().flatten().any(..)` the proof does not close.
    pub(crate) fn has_arcs(&self, stage: u16) -> bool
        ensures { result ≡ joined self.now.arcs stage }
    {
        self.arcs.iter().any(|slot| slot.is_some_and(|arc| arc.from == stage || arc.to == stage))
    }

    /// The first slot that holds this: an arc, or none.
    pub(crate) fn place_of(&self, content: Option<Arc>) -> Option<usize>
        ensures { result ≡ position (same_slot content) self.now.arcs }
    {
        self.arcs.iter().position(|slot| *slot == content)
    }
}
