//! A text's parts and their places.

ghost use Rattle.std.specs.Prelude.{◌+◌, ◌-◌, ◌*◌, ◌^◌, ◌<◌, length};
ghost use Rattle.std.specs.Option.{ForSome};

/// Where a part of a text begins: its line, from 1, and its byte offset in the whole text, from 0.
#[derive(Clone, Copy, Debug, PartialEq, Eq)]
pub struct Place {
    pub line: usize,
    pub offset: usize,
}

/// A line of a text, or a word of a line, with its place. It keeps the text up to its own end, and not
/// its bytes alone, so that the offset of each of its bytes surely fits a `usize`.
// Contracts read a part by `told`, its bytes and its place: a type that is `Copy` and has a lifetime can have no
// `impl Model`.
#[derive(Clone, Copy)]
pub struct Part<'a> {
    pub(crate) upto: &'a [u8],
    pub place: Place,
}

/// The byte between the parts of a text, and by how many lines each such byte takes the line on: a number that is added
/// to the line.
#[derive(Clone, Copy)]
pub(crate) struct Separator {
    pub(crate) byte: u8,
    pub(crate) lines: usize,
}

/// The parts of a text that are still to come, in order. The next one begins at the place `next`, if there is one. The
/// ghost field says that the line stays in range even if all the bytes to come are separators.
// The library's `split` gives the bytes of the parts, and not where they stand.
#[derive(Clone, Copy)]
pub struct Parts<'a> {
    pub(crate) text: &'a [u8],
    pub(crate) separator: Separator,
    pub(crate) next: Option<Place>,
    ghost fits: { ForSome next (λ place. place.line + separator.lines * (length text.now - place.offset) < 2 ^ 64) },
}
