//! A page device in memory, which a test can make fail and crash.
ghost use Rattle.std.specs.Prelude.{◌≡◌, ◌≤◌, ◌<◌, ◌+◌, ℕ, Some, None, length, if◌then◌else◌, IsTrue, true, false, OnOk, OnErr, IfOk, IsErrOf, IsOkUnless};
ghost use Rattle.std.specs.Borrow.{sem};
ghost use Rattle.std.specs.BTreeMap.{get};
ghost use Rattle.std.specs.FinMap as map;
ghost use Rattle.std.specs.List.Sorted.{IsStrictlyIncreasing};
ghost use Rattle.std.specs.Option.{option_map};
ghost use Rattle.std.specs.Ordering.{nat_cmp};
ghost use Rattle.std.specs.Vec.{vec_capacity};
ghost use Rattle.stable.specs.Device.{Rests};
ghost use Rattle.stable.specs.PagesState.{pages_of, rooms_of, has_room, pages_after};
ghost use Rattle.stable.specs.Usage.{is_due, is_set, used, unused, failing_in};

use crate::crash_device::CrashPages;
use crate::error::DeviceError;
use crate::faults::Faults;
use crate::page_device::PageDevice;
use std::alloc::{AllocError, Global};
use std::collections::BTreeMap;
use std::marker::Model;

/// Pages in memory. Each device call counts down to the failure that was set. One that is refused for memory changes
/// no page and isn't counted.
#[derive(Drop)]
pub struct MemPages {
    alloc: Global,
    places: BTreeMap<u64, Page>,
    faults: Faults,
}

/// The place of a page, which has room for an image before the page is written.
#[derive(Drop)]
pub(crate) struct Page {
    pub(crate) image: Vec<u8>,
    pub(crate) is_written: bool,
}

impl Model for MemPages {
    ghost use Rattle.stable.specs.PagesState.{PagesState, pages_state_code, pages_of, rooms_of};

    ghost Value = { PagesState };

    ghost coded = { pages_state_code };

    ghost view = { λ m. record {
      pages = pages_of m.places.entries;
      rooms = rooms_of m.places.entries;
      usage = m.faults;
    } };
}

impl MemPages {
    /// A device without pages and with no failure set, which takes its memory from `alloc`.
    pub fn new(alloc: Global) -> MemPages
        ensures pages { result.pages ≡ map.empty }
        ensures unused { result.usage ≡ unused }
    {
        MemPages {
            alloc,
            places: BTreeMap::new(alloc),
            faults: Faults::new(),
        }
    }
}

impl PageDevice for MemPages {
    ghost use Rattle.stable.specs.contracts.mem_pages.MemPages.{the_row};
    ghost use Rattle.stable.specs.PagesState.{has_room};

    ghost pages = { λ device. device.pages };

    ghost has_room = { λ device. has_room device.rooms };

    ghost usage = { λ device. device.usage };

    fn kept(&self) {
        self.faults.kept();
    }

    fn make_room(&mut self, id: u64, len: usize) -> Result<(), AllocError>
        ensures room { OnOk result ((n : ℕ) → n ≤ len → has_room self.new.rooms id n ≡ true) }
        ensures kept { (other n : ℕ) → has_room self.old.rooms other n ≡ true
            → has_room self.new.rooms other n ≡ true }
        ensures full { OnErr result (has_room self.old.rooms id len ≡ false) }
        ensures same { self.new.pages ≡ self.old.pages }
        ensures uncounted { self.new.usage ≡ self.old.usage }
    {
        make_room(self.alloc, &mut self.places, id, len)
    }

    fn write(&mut self, id: u64, image: &[u8]) -> Result<(), DeviceError>
        ensures due { OnOk result (is_due self.old.usage ≡ false) }
        ensures written { OnOk result (self.new.pages ≡ map.insert self.old.pages id image.now) }
        ensures err { OnErr result (self.new.pages ≡ self.old.pages) }
        ensures no_room { IsErrOf result DeviceError.NoMemory → has_room self.old.rooms id (length image.now) ≡ false }
        ensures kept { (other n : ℕ) → has_room self.old.rooms other n ≡ true
            → has_room self.new.rooms other n ≡ true }
        ensures device { IsErrOf result DeviceError.Device → IsTrue (is_due self.old.usage) }
        ensures used { self.new.usage ≡ used self.old.usage result }
    {
        make_room(self.alloc, &mut self.places, id, image.len())?;
        self.faults.call()?;
        put(&mut self.places, id, image);
        Ok(())
    }

    fn read(&mut self, id: u64) -> Result<Option<&[u8]>, DeviceError>
        ensures due { OnOk result (is_due self.old.usage ≡ false) }
        ensures set { OnOk result (is_set self.old.usage ≡ false) }
        ensures device { IsErrOf result DeviceError.Device → IsTrue (is_due self.old.usage) }
        ensures value { IfOk result (λ image.
            option_map (λ bytes. bytes.now) image ≡ map.get self.old.pages id) }
        ensures no_memory { IsOkUnless result DeviceError.Device }
        ensures* after { sem 𝓛 (Rests the_row self.entry (λ new.
            new ≡ pages_after self.old result)) }
    {
        self.faults.call()?;
        Ok(image_of(&self.places, id))
    }

    fn ids(&mut self, alloc: Global) -> Result<Vec<u64>, DeviceError>
        ensures due { OnOk result (is_due self.old.usage ≡ false) }
        ensures written { IfOk result (λ ids. ids.items ≡ map.keys self.old.pages) }
        ensures rising { IfOk result (λ ids. IsStrictlyIncreasing ids.items) }
        ensures same { self.new ≡ pages_after self.old result }
        ensures device { IsErrOf result DeviceError.Device → IsTrue (is_due self.old.usage) }
    {
        let ids = ids_of(alloc, &self.places)?;
        self.faults.call()?;
        Ok(ids)
    }
}

impl CrashPages for MemPages {
    fn crash(&mut self)
        ensures { self.new ≡ self.old }
    {}

    fn fail_at(&mut self, n: u64)
        requires { 1 ≤ n }
        ensures { self.new ≡ record self.old { usage = failing_in n self.old.usage } }
    {
        self.faults.fail_at(n);
    }
}

/// Makes room for an image of this length. A page that has no place yet gets one, with its room in it.
fn make_room(
    alloc: Global,
    places: &mut BTreeMap<u64, Page>,
    id: u64,
    len: usize,
) -> Result<(), AllocError>
    ensures place { OnOk result ((page : Page) × (get nat_cmp places.new id ≡ Some page)
        × (len ≤ vec_capacity page.image)) }
    ensures room { OnOk result ((n : ℕ) → n ≤ len → has_room (rooms_of places.new.entries) id n ≡ true) }
    ensures kept { (other n : ℕ) → has_room (rooms_of places.old.entries) other n ≡ true
        → has_room (rooms_of places.new.entries) other n ≡ true }
    ensures full { OnErr result (has_room (rooms_of places.old.entries) id len ≡ false) }
    ensures same { pages_of places.new.entries ≡ pages_of places.old.entries }
{
    match places.get_mut(&id) {
        Some(page) => widen(&mut page.image, len)?,
        None => {
            let page = Page {
                image: Vec::with_capacity(alloc, len)?,
                is_written: false,
            };
            places.insert(id, page)?;
        }
    }
    Ok(())
}

/// Makes room for so many bytes in all.
fn widen(image: &mut Vec<u8>, len: usize) -> Result<(), AllocError>
    ensures room { OnOk result (len ≤ vec_capacity image.new) }
    ensures kept { vec_capacity image.old ≤ vec_capacity image.new }
    ensures full { OnErr result (vec_capacity image.old < len) }
    ensures same { image.new.items ≡ image.old.items }
{
    image.reserve(len.saturating_sub(image.len()))
}

/// Puts the image in its place, which has room for it.
fn put(places: &mut BTreeMap<u64, Page>, id: u64, image: &[u8])
    requires { (page : Page) × (get nat_cmp places.old id ≡ Some page) × (length image.now ≤ vec_capacity page.image) }
    ensures pages { pages_of places.new.entries ≡ map.insert (pages_of places.old.entries) id image.now }
    ensures kept { (other n : ℕ) → has_room (rooms_of places.old.entries) other n ≡ true
        → has_room (rooms_of places.new.entries) other n ≡ true }
{
    match places.get_mut(&id) {
        Some(page) => fill(page, image),
        None => unreachable!(),
    }
}

fn fill(page: &mut Page, image: &[u8])
    requires { length image.now ≤ vec_capacity page.old.image }
    ensures written { page.new.is_written ≡ true }
    ensures image { page.new.image.items ≡ image.now }
    ensures kept { vec_capacity page.old.image ≤ vec_capacity page.new.image }
{
    page.image.clear();
    match page.image.extend_from_slice(image) {
        Ok(()) => page.is_written = true,
        Err(_) => unreachable!(),
    }
}

fn image_of(places: &BTreeMap<u64, Page>, id: u64) -> Option<&[u8]>
    ensures { option_map (λ bytes. bytes.now) result ≡ map.get (pages_of places.now.entries) id }
{
    match places.get(&id) {
        Some(page) => written_image(page),
        None => None,
    }
}

fn written_image(page: &Page) -> Option<&[u8]>
    ensures { option_map (λ bytes. bytes.now) result
        ≡ (if page.now.is_written then Some page.now.image.items else None) }
{
    if page.is_written {
        Some(page.image.as_slice())
    } else {
        None
    }
}

fn ids_of(alloc: Global, places: &BTreeMap<u64, Page>) -> Result<Vec<u64>, AllocError>
    ensures written { IfOk result (λ ids. ids.items ≡ map.keys (pages_of places.now.entries)) }
    ensures rising { IfOk result (λ ids. IsStrictlyIncreasing ids.items) }
{
    let mut ids = Vec::new(alloc);
    for (id, page) in places {
        if page.is_written {
            ids.push(*id)?;
        }
    }
    Ok(ids)
}
