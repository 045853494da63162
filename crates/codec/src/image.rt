//! Images of leaves, each read from all of its page.
ghost use Rattle.std.specs.Prelude.{◌≡◌, ◌≢◌, ◌+◌, ◌<◌, ◌≤◌, ◌^◌, ◌++◌, ℕ, List, length, vec_len, vec_capacity, OnOk, OnErr, IfOk, IfErr, IfSome, IfNone, OnSome};
ghost use Rattle.codec.specs.declared.image.LeafImage.{LeafImage};
ghost use Rattle.codec.specs.Fields.{number, text, optional};
ghost use Rattle.codec.specs.Frames.{IfTaken, IfBad, IsWhole};
ghost use Rattle.record_key.specs.Order.{is_between};
ghost use Rattle.codec.specs.Images.{image_in, image_bytes, IsOrderedImage, IsImage};
ghost use Rattle.codec.specs.Writing.{HasRoom, Puts};
ghost use Rattle.std.specs.Option.{option_copied};
ghost use Rattle.codec.specs.Reading.{Gives, Finds, IfRefused, image_numbers_at, fences_at, image_of, image_parts_at, image_at, BeginsAsImage, mapped, all_of, value_or_bad, rows_lie, entries_stand, keeps_bounds};

use crate::entries::{entries_len, entries_rise, put_entries, take_entries};
use crate::fault::Fault;
use crate::frame::HEADER_LEN;
use crate::key_order::is_below;
use crate::lengths::optional_key_len;
use crate::lent_rows::LentRows;
use crate::reading::{take_number, take_optional_key};
use crate::rows::{Rows, put_rows, rows_len, take_rows};
use crate::taken::Taken;
use crate::writing::{put_number, put_optional_key};
use record_key::{Entries, Key, Refusal};
use std::alloc::Global;

/// A leaf, as its page keeps it.
#[derive(Debug, Drop)]
pub struct LeafImage {
    pub id: u64,
    /// The last system transaction that changed the leaf.
    pub last: u64,
    /// Each operation numbered up to this is done, and has no entry.
    pub low: u64,
    /// The first key that belongs to the leaf. None: there is no bound below.
    pub low_fence: Option<Key>,
    /// The first key above them that doesn't. None: there is no bound above.
    pub high_fence: Option<Key>,
    /// The records, with rising keys.
    pub rows: Rows,
    /// The operations above `low` that are done, with rising numbers.
    pub entries: Entries,
}

/// A leaf's image whose parts are borrowed, as it is written.
#[derive(Debug, Drop)]
pub struct LeafImageRef<'a> {
    pub id: u64,
    pub last: u64,
    pub low: u64,
    pub low_fence: Option<&'a Key>,
    pub high_fence: Option<&'a Key>,
    pub rows: LentRows<'a>,
    pub entries: &'a Entries,
}

impl LeafImage {
    ghost use Rattle.codec.specs.Images.{image_in};

    /// The image's parts, to be written.
    pub fn borrowed(&self) -> LeafImageRef<'_>
        ensures { image_in result ≡ self.now }
    {
        LeafImageRef {
            id: self.id,
            last: self.last,
            low: self.low,
            low_fence: self.low_fence.as_ref(),
            high_fence: self.high_fence.as_ref(),
            rows: self.rows.lent(),
            entries: &self.entries,
        }
    }
}

/// Appends the image, its one spelling. Where memory for it is refused nothing is appended.
pub fn put_leaf_image(out: &mut Vec<u8>, image: &LeafImageRef<'_>) -> Result<(), Refusal>
    requires { IsOrderedImage (image_in image.now) }
    ensures spelling { OnOk result (out.new.items ≡ out.old.items ++ image_bytes (image_in image.now)) }
    ensures has_spelling { OnOk result (IsImage (image_in image.now)) }
    ensures refused { OnErr result (out.new.items ≡ out.old.items) }
    ensures cause { IfErr result (λ refusal. refusal ≡ Refusal.NoMemory) }
    ensures room { OnErr result (vec_capacity out.old < vec_len out.old + length (image_bytes (image_in image.now))) }
    ensures room_kept { vec_capacity out.old ≤ vec_capacity out.new }
{
    let Some(length) = leaf_image_len(image) else {
        return Err(Refusal::NoMemory);
    };
    out.reserve(length)?;
    put_image(out, image);
    Ok(())
}

/// How many bytes the image takes. None where that is 2 to the power of 64 or more.
#[tactic(auto, using(crate::proofs::Images::image_length))]
pub fn leaf_image_len(image: &LeafImageRef<'_>) -> Option<usize>
    requires { IsOrderedImage (image_in image.now) }
    ensures some { IfSome result (λ len. len ≡ length (image_bytes (image_in image.now))) }
    ensures spelled { OnSome result (IsImage (image_in image.now)) }
    ensures none { IfNone result (2 ^ 64 ≤ length (image_bytes (image_in image.now))) }
{
    let fences = optional_key_len(image.low_fence) + optional_key_len(image.high_fence);
    let Some(rows) = rows_len(&image.rows) else {
        return None;
    };
    let Some(entries) = entries_len(image.entries) else {
        return None;
    };
    let Some(lists) = rows.checked_add(entries) else {
        return None;
    };
    lists.checked_add(3 * HEADER_LEN + fences)
}

/// The image that all of a page's bytes are, and their length. Never Short: a page has no more bytes to come.
pub fn take_leaf_image(alloc: Global, bytes: &[u8]) -> Result<Taken<LeafImage>, Refusal>
    // What is taken is all of the page.
    ensures found { IfOk result (λ taken. IfTaken taken (IsWhole LeafImage image_bytes IsImage bytes.now)) }
    // A page that is an image is taken.
    ensures only { IfOk result (λ taken. (image : LeafImage) → IsImage image → bytes.now ≡ image_bytes image
        → taken ≡ Taken.Record image (length bytes.now)) }
    ensures never_short { IfOk result (λ taken. taken ≢ Taken.Short) }
    ensures bad { IfOk result (λ taken. IfBad taken (λ place. place ≡ 0)) }
    ensures cause { IfErr result (λ refusal. refusal ≡ Refusal.NoMemory) }
    // Memory is refused only where the page begins as an image does.
    ensures memory { IfErr result (λ _. BeginsAsImage bytes.now) }
{
    take_page(alloc, bytes)
}

/// Two images with the same spelling are the same, and none begins another.
pub fn leaf_image_spelling_law()
    ensures same { (a b : LeafImage) → IsImage a → IsImage b → image_bytes a ≡ image_bytes b → a ≡ b }
    ensures begins { (a b : LeafImage) (x y : List ℕ) → IsImage a → IsImage b
        → image_bytes a ++ x ≡ image_bytes b ++ y → (a ≡ b) × (x ≡ y) }
{}

fn is_between(low: &Option<Key>, high: &Option<Key>, key: &[u8]) -> bool
    ensures { result ≡ is_between low.now high.now key.now }
{
    if let Some(low) = low
        && is_below(key, low.as_bytes())
    {
        return false;
    }
    match high {
        None => true,
        Some(high) => is_below(key, high.as_bytes()),
    }
}

fn rows_lie(low: &Option<Key>, high: &Option<Key>, rows: &LentRows<'_>) -> bool
    ensures { result ≡ rows_lie low.now high.now rows.now }
{
    let mut rest = rows.again();
    while let Some((key, _)) = rest.next_texts() {
        if !is_between(low, high, key) {
            return false;
        }
    }
    true
}

fn entries_stand(low: &Option<Key>, high: &Option<Key>, entries: &Entries) -> bool
    ensures { result ≡ entries_stand low.now high.now entries.now }
{
    for at in 0..entries.len() {
        if !is_between(low, high, entries.entry(at).key.as_bytes()) {
            return false;
        }
    }
    true
}

/// Whether the keys lie in the fences, and the entries' numbers rise above `low`.
fn bounds_are_kept(image: &LeafImage) -> bool
    ensures { result ≡ keeps_bounds image.now }
{
    let (low, high) = (&image.low_fence, &image.high_fence);
    rows_lie(low, high, &image.rows.lent())
        && entries_stand(low, high, &image.entries)
        && entries_rise(image.low, &image.entries)
}

#[tactic(auto, unfolding(crate::specs::Images::image_bytes))]
pub(crate) fn put_image(out: &mut Vec<u8>, image: &LeafImageRef<'_>)
    requires { HasRoom out.old (image_bytes (image_in image.now)) }
    ensures { Puts out.old out.new (image_bytes (image_in image.now)) }
{
    put_number(out, image.id);
    put_number(out, image.last);
    put_number(out, image.low);
    put_optional_key(out, image.low_fence);
    put_optional_key(out, image.high_fence);
    put_rows(out, &image.rows);
    put_entries(out, image.entries);
}

#[derive(Clone, Copy)]
struct Numbers {
    id: u64,
    last: u64,
    low: u64,
}

fn take_numbers(bytes: &[u8]) -> Option<(Numbers, &[u8])>
    ensures { Gives (λ x. ((x.0.id, (x.0.last, x.0.low)), x.1.now)) result (image_numbers_at bytes.now) }
{
    let (id, rest) = take_number(bytes)?;
    let (last, rest) = take_number(rest)?;
    let (low, rest) = take_number(rest)?;
    Some((Numbers { id, last, low }, rest))
}

fn take_fences(bytes: &[u8]) -> Option<((Option<Key>, Option<Key>), &[u8])>
    ensures { Gives (λ x. (x.0, x.1.now)) result (fences_at bytes.now) }
{
    let (low, rest) = take_optional_key(bytes)?;
    let (high, rest) = take_optional_key(rest)?;
    Some(((low, high), rest))
}

fn take_parts(alloc: Global, bytes: &[u8]) -> Result<(LeafImage, &[u8]), Fault>
    ensures found { Finds (λ x. (x.0, x.1.now)) result (mapped image_of image_parts_at bytes.now) }
    ensures memory { IfRefused result (BeginsAsImage bytes.now) }
{
    let Some((numbers, rest)) = take_numbers(bytes) else {
        return Err(Fault::Outside);
    };
    let Some(((low_fence, high_fence), rest)) = take_fences(rest) else {
        return Err(Fault::Outside);
    };
    let (rows, rest) = take_rows(alloc, rest)?;
    let (entries, rest) = take_entries(alloc, rest)?;
    let image = LeafImage {
        id: numbers.id,
        last: numbers.last,
        low: numbers.low,
        low_fence,
        high_fence,
        rows,
        entries,
    };
    Ok((image, rest))
}

#[tactic(auto, unfolding(crate::specs::Reading::image_at))]
pub(crate) fn take_image(alloc: Global, bytes: &[u8]) -> Result<(LeafImage, &[u8]), Fault>
    ensures found { Finds (λ x. (x.0, x.1.now)) result (image_at bytes.now) }
    ensures memory { IfRefused result (BeginsAsImage bytes.now) }
{
    let (image, rest) = take_parts(alloc, bytes)?;
    if bounds_are_kept(&image) {
        Ok((image, rest))
    } else {
        Err(Fault::Outside)
    }
}

fn take_page(alloc: Global, bytes: &[u8]) -> Result<Taken<LeafImage>, Refusal>
    ensures value { IfOk result (λ taken. taken ≡ value_or_bad 0 (length bytes.now) (all_of image_at bytes.now)) }
    ensures cause { IfErr result (λ refusal. refusal ≡ Refusal.NoMemory) }
    ensures memory { IfErr result (λ _. BeginsAsImage bytes.now) }
{
    match take_image(alloc, bytes) {
        Ok((image, rest)) => {
            if rest.is_empty() {
                Ok(Taken::Record(image, bytes.len()))
            } else {
                Ok(Taken::Bad(0))
            }
        }
        Err(Fault::Outside) => Ok(Taken::Bad(0)),
        Err(Fault::Memory) => Err(Refusal::NoMemory),
    }
}
