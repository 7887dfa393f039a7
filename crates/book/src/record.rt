//! A rule book in memory.

ghost use Rattle.book.specs.Consistency.{Consistent};

use rules::Arc;

/// A stage of a book. The mark is no `Option`, absent where the stage is not live: a change that drops a
/// stage leaves its mark.
#[derive(Clone, Copy)]
pub(crate) struct Stage {
    pub(crate) live: bool,
    pub(crate) mark: u8,
}

/// A rule book as a plain record: a value that is copied and compared place by place, with no pointers.
/// Stage n is `stages[n]`; each arc that stands has one of the slots `arcs`, and `count` says how many do.
/// The ghost field is what is true of every book: 1 to 15 events, stage 0 live, marks up to 7, no arc in
/// two slots, arcs between live stages and with a label up to the number of events, and the count right. A
/// width narrower than 256 stages is no part of the record: changes are told the width that they must keep
/// to.
// Contracts read a book by `rules_of`, and not by an `impl Model`: a type that is `Copy` can have one only if its
// fields can be made from what it means, and the order of the slots is not in that.
#[derive(Clone, Copy)]
pub struct Book {
    pub(crate) events: u8,
    pub(crate) stages: [Stage; 256],
    // A book is a plain record with no heap, so it has a fixed table of slots, in no order.
    pub(crate) arcs: [Option<Arc>; 1024],
    // Part of the plain record, so that how many arcs stand is told without a look at every slot.
    pub(crate) count: u16,
    ghost consistent: { Consistent events stages arcs count },
}
