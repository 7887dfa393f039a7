//! Sheets applied one after the other to one book.

use crate::apply_sheet;
use book::Book;
use rules::Arc;
use std::process::Abort;
use std::test::Fail;

/// The sheet is accepted, and makes so many changes.
fn accepts(
    rt: &impl Abort,
    book: &mut Book,
    width: u16,
    sheet: &[u8],
    changes: usize,
) -> Result<(), Fail> {
    let made = apply_sheet(book, width, sheet)?;
    assert_eq!(rt; made, changes);
    Ok(())
}

/// The sheet is refused by this fault on this line, at this offset.
fn refuses(
    rt: &impl Abort,
    book: &mut Book,
    width: u16,
    sheet: &[u8],
    number: u8,
    line: usize,
    offset: usize,
) -> Result<(), Fail> {
    match apply_sheet(book, width, sheet) {
        Ok(_) => Err(Fail::new("the sheet is accepted")),
        Err(fault) => {
            assert_eq!(rt; fault.number(), number);
            assert_eq!(rt; fault.place().line, line);
            assert_eq!(rt; fault.place().offset, offset);
            Ok(())
        }
    }
}

/// What a refused sheet would have changed is as it was, and a later sheet is accepted.
#[test]
fn refused_sheet_changes_nothing(rt: HostRuntime) -> Result<(), Fail> {
    let mut book = Book::fresh(2).ok_or("no book")?;
    accepts(&rt, &mut book, 256, b"stage 1 0\n\n# remark\narc 0 1 1", 2)?;
    refuses(
        &rt,
        &mut book,
        256,
        b"mark 1 3\ncut 0 1 1\n#\ncut 0 1 1\n",
        27,
        4,
        21,
    )?;
    assert!(rt;
        book.has_arc(Arc {
            from: 0,
            label: 1,
            to: 1
        })
    );
    assert_eq!(rt; book.mark_of(1), 0);
    accepts(&rt, &mut book, 256, b"cut 0 1 1\ndrop 1\n", 2)?;
    assert!(rt; !book.is_live(1));
    Ok(())
}

/// The text is read to its end before the book is asked.
#[test]
fn text_faults_come_first(rt: HostRuntime) -> Result<(), Fail> {
    let mut book = Book::fresh(2).ok_or("no book")?;
    refuses(&rt, &mut book, 256, b"drop 0\nmark 1 07", 14, 2, 14)?;
    refuses(&rt, &mut book, 256, b"drop 0\nmark 1 7", 24, 1, 0)
}

#[test]
fn width(rt: HostRuntime) -> Result<(), Fail> {
    let mut book = Book::fresh(2).ok_or("no book")?;
    refuses(&rt, &mut book, 64, b"stage 64 0", 21, 1, 0)?;
    accepts(&rt, &mut book, 64, b"stage 63 0", 1)?;
    accepts(&rt, &mut book, 256, b"stage 255 0", 1)
}
