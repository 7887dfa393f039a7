//! Changes of a book at their edges, and which fault comes first.

use crate::Book;
use rules::{Arc, Change};
use std::process::Abort;
use std::test::Fail;

fn stage(stage: u16, mark: u16) -> Change {
    Change::Stage { stage, mark }
}

fn mark(stage: u16, mark: u16) -> Change {
    Change::Mark { stage, mark }
}

fn drop(stage: u16) -> Change {
    Change::Drop { stage }
}

fn arc(from: u16, label: u16, to: u16) -> Change {
    Change::Arc(Arc { from, label, to })
}

fn cut(from: u16, label: u16, to: u16) -> Change {
    Change::Cut(Arc { from, label, to })
}

/// The book makes the change.
fn made(rt: &impl Abort, book: &mut Book, width: u16, change: Change) {
    assert!(rt; book.change(width, change).is_ok());
}

/// The book declines the change with the fault of this number.
fn declined(
    rt: &impl Abort,
    book: &mut Book,
    width: u16,
    change: Change,
    number: u8,
) -> Result<(), Fail> {
    match book.change(width, change) {
        Ok(()) => Err(Fail::new("the change is made")),
        Err(fault) => {
            assert!(rt; fault.number() == number);
            Ok(())
        },
    }
}

#[test]
fn events_from_1_to_15(rt: HostRuntime) {
    assert!(rt; Book::fresh(0).is_none());
    assert!(rt; Book::fresh(1).is_some());
    assert!(rt; Book::fresh(15).is_some());
    assert!(rt; Book::fresh(16).is_none());
}

#[test]
fn stages_below_the_width(rt: HostRuntime) -> Result<(), Fail> {
    let mut book = Book::fresh(2).ok_or("no book")?;
    made(&rt, &mut book, 256, stage(255, 0));
    declined(&rt, &mut book, 256, stage(256, 0), 21)?;
    declined(&rt, &mut book, 1000, stage(256, 0), 21)?;
    made(&rt, &mut book, 64, stage(63, 0));
    declined(&rt, &mut book, 64, stage(64, 0), 21)
}

#[test]
fn labels_and_marks(rt: HostRuntime) -> Result<(), Fail> {
    let mut book = Book::fresh(2).ok_or("no book")?;
    made(&rt, &mut book, 64, arc(0, 2, 0));
    declined(&rt, &mut book, 64, arc(0, 3, 0), 21)?;
    made(&rt, &mut book, 64, mark(0, 7));
    declined(&rt, &mut book, 64, mark(0, 8), 21)?;
    assert!(rt; book.mark_of(0) == 7);
    Ok(())
}

#[test]
fn book_full_at_1024_arcs(rt: HostRuntime) -> Result<(), Fail> {
    let mut book = Book::fresh(15).ok_or("no book")?;
    for n in 1..64 {
        made(&rt, &mut book, 64, stage(n, 0));
    }
    for from in 0..64 {
        for label in 0..16 {
            made(&rt, &mut book, 64, arc(from, label, 0));
        }
    }
    assert!(rt; book.arc_count() == 1024);
    declined(&rt, &mut book, 64, arc(0, 0, 1), 28)?;
    declined(&rt, &mut book, 64, arc(63, 15, 0), 26)?;
    made(&rt, &mut book, 64, cut(63, 15, 0));
    made(&rt, &mut book, 64, arc(0, 0, 1));
    Ok(())
}

#[test]
fn first_fault_is_told(rt: HostRuntime) -> Result<(), Fail> {
    let mut book = Book::fresh(2).ok_or("no book")?;
    made(&rt, &mut book, 64, arc(0, 1, 0));
    declined(&rt, &mut book, 64, stage(0, 8), 21)?;
    declined(&rt, &mut book, 64, mark(5, 8), 21)?;
    declined(&rt, &mut book, 64, stage(0, 0), 23)?;
    declined(&rt, &mut book, 64, drop(5), 22)?;
    declined(&rt, &mut book, 64, cut(0, 1, 5), 22)?;
    declined(&rt, &mut book, 64, drop(0), 24)
}

/// A change that is declined leaves the book as it was.
#[test]
fn declined_alters_nothing(rt: HostRuntime) -> Result<(), Fail> {
    let mut book = Book::fresh(2).ok_or("no book")?;
    made(&rt, &mut book, 64, stage(1, 3));
    made(&rt, &mut book, 64, arc(0, 2, 1));
    declined(&rt, &mut book, 64, stage(1, 5), 23)?;
    declined(&rt, &mut book, 64, drop(1), 25)?;
    declined(&rt, &mut book, 64, arc(0, 2, 1), 26)?;
    declined(&rt, &mut book, 64, cut(1, 2, 0), 27)?;
    assert!(rt; book.is_live(1) && book.mark_of(1) == 3);
    assert!(rt;
        book.has_arc(Arc {
            from: 0,
            label: 2,
            to: 1
        })
    );
    assert!(rt;
        !book.has_arc(Arc {
            from: 1,
            label: 2,
            to: 0
        })
    );
    assert!(rt; book.arc_count() == 1);
    Ok(())
}

#[test]
fn stage_again_after_drop(rt: HostRuntime) -> Result<(), Fail> {
    let mut book = Book::fresh(2).ok_or("no book")?;
    made(&rt, &mut book, 64, stage(1, 3));
    made(&rt, &mut book, 64, drop(1));
    assert!(rt; !book.is_live(1));
    made(&rt, &mut book, 64, stage(1, 5));
    assert!(rt; book.is_live(1) && book.mark_of(1) == 5);
    Ok(())
}
