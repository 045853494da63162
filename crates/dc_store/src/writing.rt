//! Leaves that are written to their pages, the log first.
ghost use Rattle.std.specs.Prelude.{List, ◌≡◌, ◌<◌, ◌≤◌, ◌^◌, ℕ, true, vec_capacity, IfErr, OnOk, OnErr};
ghost use Rattle.std.specs.List.{AllByRecursion};
ghost use Rattle.codec.specs.Images.{IsOrderedImage, IsImage, image_bytes};
ghost use Rattle.dc_leaf.specs.Leaf.{LeafView};
ghost use Rattle.dc_leaf.specs.Tops.{all_within};
ghost use Rattle.dc_recovery.specs.Images.{image_of};
ghost use Rattle.dc_store.specs.Changes.{written_to, written_all};
ghost use Rattle.dc_store.specs.Gives.{FlushGives, CheckpointGives, HaveImages, FailsWriting, FailsAmong};
ghost use Rattle.dc_store.specs.Kept.{IsSystem};
ghost use Rattle.dc_store.specs.Seen.{seen};
ghost use Rattle.dc_store.specs.Writing.{image_len, HasRoom, HaveRoom};

use crate::change_log::ChangeLog;
use crate::image::image_of;
use crate::system::SystemTxns;
use codec::{leaf_image_len, put_leaf_image};
use dc_leaf::Leaf;
use dc_tree::LeafSet;
use framed_log::refusal_of;
use record_key::{Key, Refusal};
use stable::{LogDevice, PageDevice};

impl<L: LeafSet, D: LogDevice, P: PageDevice> SystemTxns<L, D, P> {
    /// Writes the leaf that has the key to its page, the log first where it has to be forced, and answers the leaf's
    /// number: a force at most, and one write. Refused NotNow where it has an entry above the known end, or NoMemory,
    /// and unchanged then; Device, where the log may be stable further.
    pub fn flush(&mut self, key: &Key, known: u64) -> Result<u64, Refusal>
        ensures gives { FlushGives self.old key.now known result self.new }
    {
        let place = self.leaves.place_of(key);
        let leaf = self.leaves.leaf(place);
        if !leaf.is_within(known) {
            return Err(Refusal::NotNow);
        }
        // All memory is taken before the log is forced, so that then only a device can fail.
        if let Err(refusal) = prepare(leaf, &mut self.pages, &mut self.image) {
            return Err(refusal);
        }
        if let Err(refusal) = put(leaf, &mut self.log, &mut self.pages, &self.image) {
            return Err(refusal);
        }
        Ok(leaf.id())
    }

    /// Counts every request up to this number as performed, and writes each leaf. Refused NotNow where one has an entry
    /// above the known end, or NoMemory, and unchanged then; Device, where all leaves have been raised and some
    /// written.
    pub fn checkpoint(&mut self, low: u64, known: u64) -> Result<(), Refusal>
        requires { low < 2 ^ 48 }
        ensures gives { CheckpointGives self.old low known result self.new }
    {
        if !all_within(&self.leaves, known) {
            return Err(Refusal::NotNow);
        }
        // Room for all images is made before any leaf is raised, which makes no image longer.
        if let Err(refusal) = make_room(&self.leaves, &mut self.image, &mut self.pages) {
            return Err(refusal);
        }
        self.leaves.raise(low);
        write_all(
            &self.leaves,
            &mut self.log,
            &mut self.pages,
            &mut self.image,
        )
    }
}

/// Writes each leaf. There is room for them.
fn write_all<L: LeafSet, D: LogDevice, P: PageDevice>(
    leaves: &L,
    log: &mut ChangeLog<D>,
    pages: &mut P,
    image: &mut Vec<u8>,
) -> Result<(), Refusal>
    requires kept { IsSystem (seen (L.leaves leaves.now) log.old (P.pages pages.old) (P.usage pages.old)) }
    requires room { HaveRoom (P.has_room pages.old) (vec_capacity image.old) (L.leaves leaves.now) }
    ensures kept { IsSystem (seen (L.leaves leaves.now) log.new (P.pages pages.new) (P.usage pages.new)) }
    ensures images { OnOk result (HaveImages (L.leaves leaves.now)) }
    ensures written { OnOk result (seen (L.leaves leaves.now) log.new (P.pages pages.new) (P.usage pages.new)
        ≡ written_all (seen (L.leaves leaves.now) log.old (P.pages pages.old) (P.usage pages.old))
        (L.leaves leaves.now)) }
    ensures refused { IfErr result (λ refusal. refusal ≡ Refusal.Device) }
    ensures failed { OnErr result (FailsAmong
        (seen (L.leaves leaves.now) log.old (P.pages pages.old) (P.usage pages.old)) (L.leaves leaves.now)
        (seen (L.leaves leaves.now) log.new (P.pages pages.new) (P.usage pages.new))) }
{
    for place in 0..leaves.len() {
        if let Err(refusal) = write(leaves.leaf(place), log, pages, image) {
            return Err(refusal);
        }
    }
    Ok(())
}

/// Spells the leaf and writes it. There is room for it.
fn write<D: LogDevice, P: PageDevice>(
    leaf: &Leaf,
    log: &mut ChangeLog<D>,
    pages: &mut P,
    image: &mut Vec<u8>,
) -> Result<(), Refusal>
    requires ordered { IsOrderedImage (image_of leaf.now) }
    requires room { HasRoom (P.has_room pages.old) (vec_capacity image.old) leaf.now }
    ensures image { OnOk result (IsImage (image_of leaf.now)) }
    ensures written { OnOk result ((leaves : List LeafView) →
        seen leaves log.new (P.pages pages.new) (P.usage pages.new)
        ≡ written_to (seen leaves log.old (P.pages pages.old) (P.usage pages.old)) leaf.now) }
    ensures refused { IfErr result (λ refusal. refusal ≡ Refusal.Device) }
    ensures failed { OnErr result ((leaves : List LeafView) →
        FailsWriting (seen leaves log.old (P.pages pages.old) (P.usage pages.old)) leaf.now
        (seen leaves log.new (P.pages pages.new) (P.usage pages.new))) }
    ensures spelling_kept { vec_capacity image.old ≤ vec_capacity image.new }
    ensures room_kept { (id n : ℕ) → P.has_room pages.old id n ≡ true → P.has_room pages.new id n ≡ true }
{
    if spell(image, leaf).is_err() {
        unreachable!();
    }
    put(leaf, log, pages, image)
}

/// Spells the leaf and makes room in its page. Refused NoMemory.
fn prepare<P: PageDevice>(leaf: &Leaf, pages: &mut P, image: &mut Vec<u8>) -> Result<(), Refusal>
    requires { IsOrderedImage (image_of leaf.now) }
    ensures same { P.pages pages.new ≡ P.pages pages.old }
    ensures unused { P.usage pages.new ≡ P.usage pages.old }
    ensures image { OnOk result (IsImage (image_of leaf.now)) }
    ensures spelled { OnOk result (image.new.items ≡ image_bytes (image_of leaf.now)) }
    ensures room { OnOk result (P.has_room pages.new leaf.now.id (image_len leaf.now) ≡ true) }
    ensures memory { IfErr result (λ refusal. refusal ≡ Refusal.NoMemory) }
{
    if let Err(refusal) = spell(image, leaf) {
        return Err(refusal);
    }
    pages.make_room(leaf.id(), image.len())?;
    Ok(())
}

/// Puts the image that was spelled of the leaf into its page, which has room for it: the log is forced first where it
/// has to be.
fn put<D: LogDevice, P: PageDevice>(
    leaf: &Leaf,
    log: &mut ChangeLog<D>,
    pages: &mut P,
    image: &[u8],
) -> Result<(), Refusal>
    requires spelled { image.now ≡ image_bytes (image_of leaf.now) }
    requires room { P.has_room pages.old leaf.now.id (image_len leaf.now) ≡ true }
    ensures written { OnOk result ((leaves : List LeafView) →
        seen leaves log.new (P.pages pages.new) (P.usage pages.new)
        ≡ written_to (seen leaves log.old (P.pages pages.old) (P.usage pages.old)) leaf.now) }
    ensures refused { IfErr result (λ refusal. refusal ≡ Refusal.Device) }
    ensures failed { OnErr result ((leaves : List LeafView) →
        FailsWriting (seen leaves log.old (P.pages pages.old) (P.usage pages.old)) leaf.now
        (seen leaves log.new (P.pages pages.new) (P.usage pages.new))) }
    ensures room_kept { (id n : ℕ) → P.has_room pages.old id n ≡ true → P.has_room pages.new id n ≡ true }
{
    if leaf.last() > log.stable_end() {
        log.force()?;
    }
    match pages.write(leaf.id(), image) {
        Ok(()) => Ok(()),
        Err(error) => Err(refusal_of(error)),
    }
}

/// Whether no leaf has an entry above the known end.
fn all_within<L: LeafSet>(leaves: &L, known: u64) -> bool
    ensures { result ≡ all_within known (L.leaves leaves.now) }
{
    for place in 0..leaves.len() {
        if !leaves.leaf(place).is_within(known) {
            return false;
        }
    }
    true
}

/// Spells the leaf's image in the place of what stood there.
fn spell(image: &mut Vec<u8>, leaf: &Leaf) -> Result<(), Refusal>
    requires { IsOrderedImage (image_of leaf.now) }
    ensures spelled { OnOk result (image.new.items ≡ image_bytes (image_of leaf.now)) }
    ensures fits { OnOk result (IsImage (image_of leaf.now)) }
    ensures memory { IfErr result (λ refusal. refusal ≡ Refusal.NoMemory) }
    ensures room { OnErr result (vec_capacity image.old < image_len leaf.now) }
    ensures room_kept { vec_capacity image.old ≤ vec_capacity image.new }
{
    image.clear();
    put_leaf_image(image, &image_of(leaf))
}

/// Makes room for the image of each leaf, where images are spelled and in its page.
fn make_room<L: LeafSet, P: PageDevice>(
    leaves: &L,
    image: &mut Vec<u8>,
    pages: &mut P,
) -> Result<(), Refusal>
    requires { AllByRecursion (λ (leaf : LeafView). IsOrderedImage (image_of leaf)) (L.leaves leaves.now) }
    ensures room { OnOk result (HaveRoom (P.has_room pages.new) (vec_capacity image.new) (L.leaves leaves.now)) }
    ensures same { P.pages pages.new ≡ P.pages pages.old }
    ensures unused { P.usage pages.new ≡ P.usage pages.old }
    ensures memory { IfErr result (λ refusal. refusal ≡ Refusal.NoMemory) }
{
    image.clear();
    for place in 0..leaves.len() {
        let leaf = leaves.leaf(place);
        let Some(len) = leaf_image_len(&image_of(leaf)) else {
            return Err(Refusal::NoMemory);
        };
        image.reserve(len)?;
        pages.make_room(leaf.id(), len)?;
    }
    Ok(())
}
