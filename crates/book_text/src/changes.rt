//! The changes that make a book of a fresh one, in canonical order.

ghost use Rattle.std.specs.Prelude.{◌≡◌, ◌++◌, map, IfOk, OnOk};
ghost use Rattle.std.specs.List.{filter_map};
ghost use Rattle.std.specs.Option.{option_to_list};
ghost use Rattle.rules.specs.declared.change.Change.TheVariants.{Arc as Added};
ghost use Rattle.book.specs.Records.{rules_of};
ghost use Rattle.book_text.specs.Canonical.{stage_change, stage_changes, ArcsInOrder, CanonicalChanges};

use book::Book;
use rules::{Arc, Change};
use std::alloc::{AllocError, Global};

/// The live stages in ascending order, and then the arcs in ascending order of from stage, label and to
/// stage, as the changes that make them. The arcs are sorted, so the time is about linear in stages and
/// slots.
pub fn canonical_changes(heap: Global, book: &Book) -> Result<Vec<Change>, AllocError>
    ensures { IfOk result (λ v. CanonicalChanges (rules_of book.now) v.items) }
{
    let mut changes = stage_changes(heap, book)?;
    let arcs = sorted_arcs(heap, book)?;
    push_arcs(&mut changes, arcs.as_slice())?;
    Ok(changes)
}

/// The changes that make the live stages.
fn stage_changes(heap: Global, book: &Book) -> Result<Vec<Change>, AllocError>
    ensures { IfOk result (λ v. v.items ≡ stage_changes (rules_of book.now)) }
{
    (0..256)
        .filter_map(|stage| stage_change(book, stage))
        .collect(heap)
}

/// The change that makes the stage, if it is live.
fn stage_change(book: &Book, stage: u16) -> Option<Change>
    ensures { option_to_list result ≡ stage_change (rules_of book.now) stage }
{
    let mark = u16::from(book.mark_of(stage));
    if stage == 0 {
        Some(Change::Mark { stage, mark })
    } else if book.is_live(stage) {
        Some(Change::Stage { stage, mark })
    } else {
        None
    }
}

/// The arcs in ascending order.
fn sorted_arcs(heap: Global, book: &Book) -> Result<Vec<Arc>, AllocError>
    ensures { IfOk result (λ v. ArcsInOrder (rules_of book.now) v.items) }
{
    let mut arcs = arcs_of(heap, book.slots())?;
    arcs.sort_unstable();
    Ok(arcs)
}

/// The arcs in the order of their slots.
fn arcs_of(heap: Global, slots: &[Option<Arc>]) -> Result<Vec<Arc>, AllocError>
    ensures { IfOk result (λ v. v.items ≡ filter_map (λ s. s) slots.now) }
{
    slots.iter().filter_map(|slot| *slot).collect(heap)
}

/// Adds the changes that add the arcs.
fn push_arcs(changes: &mut Vec<Change>, arcs: &[Arc]) -> Result<(), AllocError>
    ensures { OnOk result (changes.new.items ≡ changes.old.items ++ map Added arcs.now) }
{
    changes.extend(arcs.iter().map(|arc| Change::Arc(*arc)))
}
