//! A log's records done again on the leaves of the pages.
ghost use Rattle.std.specs.Prelude.{◌≡◌, ◌+◌, ◌<◌, ℕ, [], length, reverse, vec_len, OnOk, IsOkUnless};
ghost use Rattle.stable.specs.PagesState.{Pages};
ghost use Rattle.dc_recovery.specs.Ready.{AreReadable};
ghost use Rattle.dc_recovery.specs.Shape.{named};
ghost use Rattle.record_key.specs.Table.{Bytes};
ghost use Rattle.codec.specs.Images.{IsImage};
ghost use Rattle.dc_recovery.specs.Images.{leaf_of};
ghost use Rattle.dc_recovery.specs.Recovery.{page_or, at_left, cut_again, merged_again};
ghost use Rattle.dc_store.specs.Devices.{AreRecords, pages_of};
ghost use Rattle.dc_store.specs.Shelf.{leaf_on, redone, HasPlaces};
ghost use Rattle.dc_store.specs.Replaying.{HoldsPages, HoldsRecovered};

use crate::image::leaf_of;
use crate::shelf::Shelf;
use codec::{DcRecord, LeafImage};
use dc_leaf::Leaf;
use record_key::{Key, Refusal};
use std::alloc::Global;

/// Turns pages by number, with places for all numbers that the records name, into the leaves once the records are done
/// again, the oldest first. Refused NoMemory.
pub(crate) fn replay(
    alloc: Global,
    shelf: &mut Shelf,
    records: Vec<DcRecord>,
) -> Result<(), Refusal>
    requires records { AreRecords (reverse records.items) }
    requires readable { (pages : Pages) → AreReadable (pages_of pages) (reverse records.items) }
    requires places { named (reverse records.items) < vec_len shelf.old.slots }
    ensures recovered { OnOk result ((pages : Pages) → HoldsPages pages shelf.old.slots.items
        → HoldsRecovered pages (reverse records.items) shelf.new.slots.items) }
    ensures count { vec_len shelf.new.slots ≡ vec_len shelf.old.slots }
    ensures memory { IsOkUnless result Refusal.NoMemory }
{
    begin(alloc, shelf)?;
    let mut number = 0;
    for change in records {
        number += 1;
        redo(alloc, shelf, change, number)?;
    }
    Ok(())
}

/// No leaf has number 0, and leaf 1 is there, also where it has no page.
fn begin(alloc: Global, shelf: &mut Shelf) -> Result<(), Refusal>
    requires { 1 < vec_len shelf.old.slots }
    ensures begun { OnOk result ((pages : Pages) → HoldsPages pages shelf.old.slots.items
        → HoldsRecovered pages [] shelf.new.slots.items) }
    ensures count { vec_len shelf.new.slots ≡ vec_len shelf.old.slots }
    ensures memory { IsOkUnless result Refusal.NoMemory }
{
    let _ = shelf.replace(0, None);
    if !shelf.has(1) {
        let first = Box::new(alloc, Leaf::first(alloc))?;
        let _ = shelf.replace(1, Some(first));
    }
    Ok(())
}

/// Does the record of this number again.
fn redo(alloc: Global, shelf: &mut Shelf, change: DcRecord, number: u64) -> Result<(), Refusal>
    requires { HasPlaces change (vec_len shelf.old.slots) }
    ensures redone { OnOk result ((id : ℕ) → leaf_on shelf.new.slots.items id
        ≡ redone number change id (leaf_on shelf.old.slots.items id)) }
    ensures count { vec_len shelf.new.slots ≡ vec_len shelf.old.slots }
    ensures memory { IsOkUnless result Refusal.NoMemory }
{
    match change {
        DcRecord::Accept { .. } => {}
        DcRecord::Split { left, cut, right } => {
            cut_again(shelf, left, &cut, number);
            let id = right.id;
            // A page of the new leaf stands in its place already.
            if !shelf.has(id) {
                let leaf = Box::new(alloc, leaf_of(right))?;
                let _ = shelf.replace(id, Some(leaf));
            }
        }
        DcRecord::Merge {
            left,
            right,
            merged,
        } => {
            merge_again(shelf, left, merged, number);
            let _ = shelf.replace(right, None);
        }
    }
    Ok(())
}

/// Cuts the leaf, unless it is as young as the cut.
fn cut_again(shelf: &mut Shelf, left: u64, cut: &Key, number: u64)
    requires { left < vec_len shelf.old.slots }
    ensures cut { (id : ℕ) → leaf_on shelf.new.slots.items id
        ≡ at_left id left (cut_again number cut.now) (leaf_on shelf.old.slots.items id) }
    ensures count { vec_len shelf.new.slots ≡ vec_len shelf.old.slots }
{
    if let Some(mut leaf) = shelf.replace(left, None) {
        if leaf.last() < number {
            leaf.drop_from(cut, number);
        }
        let _ = shelf.replace(left, Some(leaf));
    }
}

/// Puts the merged leaf in the place of the left one, unless that is as young as the merge.
fn merge_again(shelf: &mut Shelf, left: u64, merged: LeafImage, number: u64)
    requires places { left < vec_len shelf.old.slots }
    requires image { IsImage merged }
    ensures merged { (id : ℕ) → leaf_on shelf.new.slots.items id
        ≡ at_left id left (merged_again number (leaf_of merged)) (leaf_on shelf.old.slots.items id) }
    ensures count { vec_len shelf.new.slots ≡ vec_len shelf.old.slots }
{
    if let Some(mut old) = shelf.replace(left, None) {
        if old.last() < number {
            *old = leaf_of(merged);
        }
        let _ = shelf.replace(left, Some(old));
    }
}
