//! Examples of lines, words and number words at their edges.

use crate::{Parts, Place, number};
use std::process::Abort;
use std::test::Fail;

/// The next part has this text and this place.
fn part(
    rt: &impl Abort,
    parts: &mut Parts,
    text: &[u8],
    line: usize,
    offset: usize,
) -> Result<(), Fail> {
    let next = parts.next().ok_or("no part is left")?;
    assert!(rt; next.text() == text);
    assert!(rt; next.place == Place { line, offset });
    Ok(())
}

fn end(rt: &impl Abort, parts: &mut Parts) {
    assert!(rt; parts.next().is_none());
}

fn reads(rt: &impl Abort, word: &[u8], expected: Option<u16>) {
    assert!(rt; number(word) == expected);
}

#[test]
fn empty_text_has_one_empty_line(rt: HostRuntime) -> Result<(), Fail> {
    let mut lines = Parts::lines(b"");
    part(&rt, &mut lines, b"", 1, 0)?;
    end(&rt, &mut lines);
    Ok(())
}

#[test]
fn lines_have_places(rt: HostRuntime) -> Result<(), Fail> {
    let mut lines = Parts::lines(b"a\n\nb\n");
    part(&rt, &mut lines, b"a", 1, 0)?;
    part(&rt, &mut lines, b"", 2, 2)?;
    part(&rt, &mut lines, b"b", 3, 3)?;
    part(&rt, &mut lines, b"", 4, 5)?;
    end(&rt, &mut lines);
    Ok(())
}

#[test]
fn words_have_places_in_the_whole_text(rt: HostRuntime) -> Result<(), Fail> {
    let mut lines = Parts::lines(b"a\narc  1");
    part(&rt, &mut lines, b"a", 1, 0)?;
    let mut words = Parts::words(lines.next().ok_or("no line is left")?);
    part(&rt, &mut words, b"arc", 2, 2)?;
    part(&rt, &mut words, b"", 2, 6)?;
    part(&rt, &mut words, b"1", 2, 7)?;
    end(&rt, &mut words);
    Ok(())
}

#[test]
fn number_words(rt: HostRuntime) {
    reads(&rt, b"0", Some(0));
    reads(&rt, b"7", Some(7));
    reads(&rt, b"999", Some(999));
    reads(&rt, b"", None);
    reads(&rt, b"00", None);
    reads(&rt, b"007", None);
    reads(&rt, b"12x", None);
    reads(&rt, b"1000", None);
}

/// Just so many words, and neither fewer nor more.
#[test]
fn counted_words(rt: HostRuntime) -> Result<(), Fail> {
    let mut lines = Parts::lines(b"a b c\nd e\nf");
    let words = Parts::words(lines.next().ok_or("no line is left")?);
    let (first, second, third) = words.three().ok_or("not three words")?;
    assert!(rt;
        first.text() == b"a".as_slice()
            && second.text() == b"b".as_slice()
            && third.text() == b"c".as_slice()
    );
    assert!(rt; words.one().is_none() && words.two().is_none());
    let words = Parts::words(lines.next().ok_or("no line is left")?);
    let (first, second) = words.two().ok_or("not two words")?;
    assert!(rt; first.text() == b"d".as_slice() && second.text() == b"e".as_slice());
    assert!(rt; words.one().is_none() && words.three().is_none());
    let words = Parts::words(lines.next().ok_or("no line is left")?);
    let only = words.one().ok_or("not one word")?;
    assert!(rt; only.text() == b"f".as_slice());
    assert!(rt; words.two().is_none() && words.three().is_none());
    Ok(())
}

#[test]
fn skipped_lines(rt: HostRuntime) -> Result<(), Fail> {
    let mut lines = Parts::lines(b"\n#a\n #a");
    assert!(rt; lines.next().ok_or("no line is left")?.is_skipped());
    assert!(rt; lines.next().ok_or("no line is left")?.is_skipped());
    assert!(rt; !lines.next().ok_or("no line is left")?.is_skipped());
    Ok(())
}
