//! The pages, read as leaves.
ghost use Rattle.std.specs.Prelude.{◌≡◌, ◌≢◌, Some, OnOk, IfOk, IfErr, vec_len};
ghost use Rattle.std.specs.FinMap as map;
ghost use Rattle.stable.specs.Usage.{called, called_often};
ghost use Rattle.dc_store.specs.Devices.{pages_of, page_in};
ghost use Rattle.dc_store.specs.Paging.{IsOwnPage, IsOwnIfAny, RefusesPage, RefusesPages};
ghost use Rattle.dc_store.specs.Recovering.{AreOwnPages};
ghost use Rattle.dc_store.specs.Replaying.{HoldsPages};
ghost use Rattle.dc_store.specs.Shelf.{held};
ghost use Rattle.dc_store.specs.Uses.{StopsWithin, page_calls};

use crate::image::leaf_of;
use crate::shelf::Shelf;
use codec::{Taken, take_leaf_image};
use dc_leaf::Leaf;
use framed_log::refusal_of;
use record_key::Refusal;
use stable::PageDevice;
use std::alloc::Global;

/// The leaf of each page, if its number is below `numbers`, in its place. Refused NoMemory, Device; BadBytes at 0 where
/// a page isn't the image of its own leaf, or its last change isn't among so many records.
pub(crate) fn read_pages<P: PageDevice>(
    alloc: Global,
    pages: &mut P,
    numbers: u64,
    records: u64,
) -> Result<Shelf, Refusal>
    ensures held { IfOk result (λ shelf. HoldsPages (P.pages pages.old) shelf.slots.items) }
    ensures count { IfOk result (λ shelf. vec_len shelf.slots ≡ numbers) }
    ensures own { OnOk result (AreOwnPages (P.pages pages.old) records) }
    ensures refused { IfErr result (RefusesPages (P.pages pages.old) records) }
    ensures same { P.pages pages.new ≡ P.pages pages.old }
    ensures used { OnOk result (P.usage pages.new
        ≡ called_often (page_calls (P.pages pages.old)) (P.usage pages.old)) }
    ensures stopped { IfErr result (λ refusal.
        StopsWithin (page_calls (P.pages pages.old)) refusal (P.usage pages.old) (P.usage pages.new)) }
{
    let ids = match pages.ids(alloc) {
        Ok(ids) => ids,
        Err(error) => return Err(refusal_of(error)),
    };
    let mut shelf = Shelf::new(alloc, numbers)?;
    for id in ids.as_slice() {
        let leaf = match read_page(alloc, pages, *id, records) {
            Ok(leaf) => leaf,
            Err(refusal) => return Err(refusal),
        };
        shelf.offer(*id, leaf);
    }
    Ok(shelf)
}

/// The leaf of a page, if there is one.
fn read_page<P: PageDevice>(
    alloc: Global,
    pages: &mut P,
    id: u64,
    records: u64,
) -> Result<Option<Box<Leaf>>, Refusal>
    ensures leaf { IfOk result (λ leaf. held leaf ≡ pages_of (P.pages pages.old) id) }
    ensures own { OnOk result (IsOwnIfAny (map.get (P.pages pages.old) id) id records) }
    ensures refused { IfErr result (RefusesPage (map.get (P.pages pages.old) id) id records) }
    ensures same { P.pages pages.new ≡ P.pages pages.old }
    ensures used { OnOk result (P.usage pages.new ≡ called (P.usage pages.old)) }
    ensures stopped { IfErr result (λ refusal. StopsWithin 1 refusal (P.usage pages.old) (P.usage pages.new)) }
{
    match pages.read(id) {
        Ok(Some(bytes)) => Ok(Some(own_leaf(alloc, bytes, id, records)?)),
        Ok(None) => Ok(None),
        Err(error) => Err(refusal_of(error)),
    }
}

/// The leaf whose image the bytes are. Refused BadBytes at 0 where they aren't that of a leaf of this number, which
/// one of so many records changed last; NoMemory.
fn own_leaf(alloc: Global, bytes: &[u8], id: u64, records: u64) -> Result<Box<Leaf>, Refusal>
    ensures leaf { IfOk result (λ leaf. page_in bytes.now ≡ Some leaf.value) }
    ensures own { OnOk result (IsOwnPage bytes.now id records) }
    ensures refused { IfErr result (RefusesPage (Some bytes.now) id records) }
    ensures no_device { IfErr result (λ refusal. refusal ≢ Refusal.Device) }
{
    let image = match take_leaf_image(alloc, bytes)? {
        Taken::Record(image, _) => image,
        _ => return Err(Refusal::BadBytes(0)),
    };
    if image.id != id || image.last > records {
        return Err(Refusal::BadBytes(0));
    }
    Ok(Box::new(alloc, leaf_of(image))?)
}
