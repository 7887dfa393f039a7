//! Canonical texts of small books.

use crate::write_book;
use book::Book;
use rules::{Arc, Change};
use std::process::Abort;
use std::test::Fail;

fn stage(rt: &impl Abort, book: &mut Book, stage: u16, mark: u16) {
    assert!(rt; book.change(256, Change::Stage { stage, mark }).is_ok());
}

fn arc(rt: &impl Abort, book: &mut Book, from: u16, label: u16, to: u16) {
    assert!(rt;
        book.change(256, Change::Arc(Arc { from, label, to }))
            .is_ok()
    );
}

/// Stages and arcs come out in order, whatever the order in which they were made.
#[test]
fn in_order(rt: HostRuntime) -> Result<(), Fail> {
    let mut book = Book::fresh(2).ok_or("no book")?;
    stage(&rt, &mut book, 2, 7);
    stage(&rt, &mut book, 1, 0);
    arc(&rt, &mut book, 2, 0, 0);
    arc(&rt, &mut book, 0, 2, 1);
    arc(&rt, &mut book, 0, 1, 2);
    arc(&rt, &mut book, 0, 1, 0);
    let text = write_book(rt.alloc(), &book)?;
    assert!(rt;
        text.as_str()
            == "2\nmark 0 0\nstage 1 0\nstage 2 7\narc 0 1 0\narc 0 1 2\narc 0 2 1\narc 2 0 0\nend\n"
    );
    Ok(())
}

/// The 65th change stands in a second sheet.
#[test]
fn at_most_64_changes_in_a_sheet(rt: HostRuntime) -> Result<(), Fail> {
    let mut book = Book::fresh(1).ok_or("no book")?;
    for n in 1..64 {
        stage(&rt, &mut book, n, 0);
    }
    let one = write_book(rt.alloc(), &book)?;
    assert!(rt; one.as_str().ends_with("\nstage 62 0\nstage 63 0\nend\n"));
    stage(&rt, &mut book, 200, 1);
    let two = write_book(rt.alloc(), &book)?;
    assert!(rt;
        two.as_str()
            .ends_with("\nstage 62 0\nstage 63 0\nend\nstage 200 1\nend\n")
    );
    Ok(())
}
