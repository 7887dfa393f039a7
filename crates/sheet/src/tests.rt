//! Worked cases at the edges of what a sheet may say.

use crate::read_sheet;
use rules::{Arc, BookFault, Change};
use sheet_faults::{Declined, SheetFault};
use std::process::Abort;
use std::test::Fail;
use text::Place;

/// The fault tells this number, this layer and this place.
fn tells(
    rt: &impl Abort,
    fault: SheetFault,
    number: u8,
    layer: u8,
    line: usize,
    offset: usize,
) -> Result<(), Fail> {
    assert!(rt; fault.number() == number);
    assert!(rt; fault.layer().number() == layer);
    assert!(rt; fault.place() == Place { line, offset });
    Ok(())
}

/// The text of the sheet is refused, with this fault at this place.
fn refuses(
    rt: &impl Abort,
    sheet: &[u8],
    number: u8,
    line: usize,
    offset: usize,
) -> Result<(), Fail> {
    match read_sheet(sheet) {
        Ok(_) => Err(Fail::new("the sheet is read")),
        Err(fault) => tells(rt, fault, number, 1, line, offset),
    }
}

/// The sheet asks for so many changes.
fn counts(rt: &impl Abort, sheet: &[u8], count: usize) -> Result<(), Fail> {
    match read_sheet(sheet) {
        Ok(changes) => {
            assert!(rt; changes.as_slice().len() == count);
            Ok(())
        },
        Err(_) => Err(Fail::new("the sheet is refused")),
    }
}

/// The sheet asks for this one change, on this line.
fn asks(
    rt: &impl Abort,
    sheet: &[u8],
    expected: Change,
    line: usize,
    offset: usize,
) -> Result<(), Fail> {
    match read_sheet(sheet) {
        Ok(changes) => match changes.as_slice() {
            [only] => {
                assert!(rt; only.change == expected);
                assert!(rt; only.place == Place { line, offset });
                Ok(())
            }
            _ => Err(Fail::new("not one change")),
        },
        Err(_) => Err(Fail::new("the sheet is refused")),
    }
}

#[test]
fn five_changes(rt: HostRuntime) -> Result<(), Fail> {
    asks(
        &rt,
        b"stage 1 7\n",
        Change::Stage { stage: 1, mark: 7 },
        1,
        0,
    )?;
    asks(&rt, b"\ndrop 0", Change::Drop { stage: 0 }, 2, 1)?;
    let arc = Arc {
        from: 0,
        label: 10,
        to: 255,
    };
    asks(
        &rt,
        b"# remark\n\narc 0 10 255\n\n",
        Change::Arc(arc),
        3,
        10,
    )?;
    let cut = Arc {
        from: 999,
        label: 1,
        to: 2,
    };
    asks(&rt, b"cut 999 1 2", Change::Cut(cut), 1, 0)?;
    asks(
        &rt,
        b"mark 3 4\n#",
        Change::Mark { stage: 3, mark: 4 },
        1,
        0,
    )
}

#[test]
fn first_word(rt: HostRuntime) -> Result<(), Fail> {
    refuses(&rt, b"Mark 1 7", 12, 1, 0)?;
    refuses(&rt, b"stage\t1 7", 12, 1, 0)?;
    refuses(&rt, b"drop 1\n# remark\n\n drop 1", 12, 4, 17)?;
    refuses(&rt, b"stages 1 7 9 x", 12, 1, 0)
}

#[test]
fn count_of_words(rt: HostRuntime) -> Result<(), Fail> {
    refuses(&rt, b"\nstage 1  7", 13, 2, 1)?;
    refuses(&rt, b"drop 1 ", 13, 1, 0)?;
    refuses(&rt, b"arc x 1", 13, 1, 0)
}

#[test]
fn number_words(rt: HostRuntime) -> Result<(), Fail> {
    refuses(&rt, b"mark 1 07", 14, 1, 7)?;
    refuses(&rt, b"drop 1000", 14, 1, 5)?;
    refuses(&rt, b"drop 1\r\n", 14, 1, 5)?;
    refuses(&rt, b"drop ", 14, 1, 5)?;
    refuses(&rt, b"drop 1\ncut 1 x y", 14, 2, 13)
}

#[test]
fn at_most_64_changes(rt: HostRuntime) -> Result<(), Fail> {
    let mut sheet = [b'\n'; 455];
    for (i, byte) in sheet.iter_mut().enumerate() {
        *byte = b"drop 1\n"[i % 7];
    }
    counts(&rt, &sheet[0..448], 64)?;
    refuses(&rt, &sheet, 15, 65, 448)
}

#[test]
fn at_most_4096_bytes(rt: HostRuntime) -> Result<(), Fail> {
    counts(&rt, &[b'#'; 4096], 0)?;
    refuses(&rt, &[b'#'; 4097], 11, 0, 0)
}

#[test]
fn declined_change(rt: HostRuntime) -> Result<(), Fail> {
    let declined = Declined {
        fault: BookFault::HasArcs,
        place: Place {
            line: 3,
            offset: 20,
        },
    };
    tells(&rt, SheetFault::Book(declined), 25, 2, 3, 20)
}
