//! The changes that a sheet asks for.

ghost use Rattle.std.specs.Prelude.{◌≡◌, ◌≤◌, length};

use rules::{Change, MAX_CHANGES};
use text::Place;

/// A change and the place, in the sheet, of the line that asks for it.
#[derive(Clone, Copy, Debug, PartialEq, Eq)]
pub struct PlacedChange {
    pub change: Change,
    pub place: Place,
}

/// The changes that a sheet asks for, in the order of its lines: the first `count` of `items`.
// Not the kit's `ArrayVec`: this type was promised to be `Copy`, and that one is not.
#[derive(Clone, Copy)]
pub struct Changes {
    pub(crate) items: [PlacedChange; MAX_CHANGES],
    pub(crate) count: usize,
    ghost within: { (count ≤ 64) × (length items ≡ 64) },
}
