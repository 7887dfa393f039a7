//! First lines, and where sheets end.

use crate::{Sheets, events};
use std::process::Abort;
use std::test::Fail;

/// The next sheet has just these bytes.
fn sheet(rt: &impl Abort, sheets: &mut Sheets, text: &[u8]) -> Result<(), Fail> {
    let next = sheets.next().ok_or("no sheet is left")?;
    assert!(rt; next == text);
    Ok(())
}

fn last(rt: &impl Abort, sheets: &mut Sheets) {
    assert!(rt; sheets.next().is_none());
}

/// The text has no sheet.
fn none(rt: &impl Abort, text: &[u8]) {
    let mut sheets = Sheets::of_season(text);
    last(rt, &mut sheets);
}

fn first_line(rt: &impl Abort, text: &[u8], expected: Option<u8>) {
    assert!(rt; events(text) == expected);
}

#[test]
fn first_lines(rt: HostRuntime) {
    first_line(&rt, b"15", Some(15));
    first_line(&rt, b"1\n16\n", Some(1));
    first_line(&rt, b"16\n", None);
    first_line(&rt, b"0\n", None);
    first_line(&rt, b"07\n", None);
    first_line(&rt, b"", None);
    first_line(&rt, b"\n7\n", None);
}

#[test]
fn no_sheet(rt: HostRuntime) {
    none(&rt, b"");
    none(&rt, b"end\n");
    none(&rt, b"2\ndrop 1\n");
    none(&rt, b"2\nend \n end\nEND\nend\r\nendend\n");
}

#[test]
fn sheets_in_order(rt: HostRuntime) -> Result<(), Fail> {
    let mut sheets = Sheets::of_season(b"2\nend\ndrop 1\n\nend \nend\nend\ndrop 2\n");
    sheet(&rt, &mut sheets, b"")?;
    sheet(&rt, &mut sheets, b"drop 1\n\nend \n")?;
    sheet(&rt, &mut sheets, b"")?;
    last(&rt, &mut sheets);
    last(&rt, &mut sheets);
    Ok(())
}

#[test]
fn end_without_newline(rt: HostRuntime) -> Result<(), Fail> {
    let mut sheets = Sheets::of_season(b"2\nstage 1 0\nend");
    sheet(&rt, &mut sheets, b"stage 1 0\n")?;
    last(&rt, &mut sheets);
    Ok(())
}
