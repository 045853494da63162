//! Records of the data component's log.
ghost use Rattle.std.specs.Prelude.{◌≡◌, ◌⊎◌, ◌↔◌, ◌+◌, ◌<◌, ◌≤◌, ◌^◌, ◌++◌, ℕ, List, length, drop, vec_len, vec_capacity, OnOk, OnErr, IfOk, IfErr, IfSome, IfNone, OnSome};
ghost use Rattle.codec.specs.declared.dc_record.DcRecord.{DcRecord};
ghost use Rattle.codec.specs.DcRecords.{record_in, dc_record_bytes, IsOrderedDcRecord, IsDcRecord, FitsFrame};
ghost use Rattle.codec.specs.Frames.{frame, any_length, IfTaken, IfBad, IsThere, IsCut, IsFrameOf, HasKind};
ghost use Rattle.std.specs.List.{flat_map, AllByRecursion};
ghost use Rattle.codec.specs.Writing.{HasRoom, Puts};
ghost use Rattle.codec.specs.Reading.{Gives, Finds, IfRefused, pair, mapped, number_at, key_at, image_at, merge_at, dc_record_at, all_of};

use crate::fault::Fault;
use crate::frame::{HEADER_LEN, take_framed};
use crate::framed::Framed;
use crate::image::{LeafImage, LeafImageRef, leaf_image_len, put_image, take_image};
use crate::lengths::key_len;
use crate::reading::{take_key, take_number};
use crate::taken::Taken;
use crate::writing::{put_byte, put_number, put_text};
use record_key::{Key, Refusal};
use std::alloc::{AllocError, Global};

/// A record of the data component's log.
#[derive(Debug, Drop)]
pub enum DcRecord {
    /// The session has begun.
    Accept {
        session: u64,
    },
    /// The rows of `left` from `cut` on went into a new leaf.
    Split {
        left: u64,
        cut: Key,
        right: LeafImage,
    },
    /// The rows of `right` went into `left`, whose image is `merged`.
    Merge {
        left: u64,
        right: u64,
        merged: LeafImage,
    },
}

/// A record whose parts are borrowed, as it is written.
#[derive(Debug, Drop)]
pub enum DcRecordRef<'a> {
    Accept {
        session: u64,
    },
    Split {
        left: u64,
        cut: &'a Key,
        right: LeafImageRef<'a>,
    },
    Merge {
        left: u64,
        right: u64,
        merged: LeafImageRef<'a>,
    },
}

impl DcRecord {
    ghost use Rattle.codec.specs.DcRecords.{record_in};

    /// The record's parts, to be written.
    pub fn borrowed(&self) -> DcRecordRef<'_>
        ensures { record_in result ≡ self.now }
    {
        match self {
            DcRecord::Accept { session } => DcRecordRef::Accept { session: *session },
            DcRecord::Split { left, cut, right } => DcRecordRef::Split {
                left: *left,
                cut,
                right: right.borrowed(),
            },
            DcRecord::Merge {
                left,
                right,
                merged,
            } => DcRecordRef::Merge {
                left: *left,
                right: *right,
                merged: merged.borrowed(),
            },
        }
    }
}

/// Appends the record's frame, its one spelling. Where memory for it is refused nothing is appended.
#[tactic(auto, using(crate::proofs::Numbered::number_lengths))]
pub fn put_dc_record(out: &mut Vec<u8>, record: &DcRecordRef<'_>) -> Result<(), Refusal>
    requires { IsOrderedDcRecord (record_in «record».now) }
    ensures spelling { OnOk result (out.new.items ≡ out.old.items ++ frame (dc_record_bytes (record_in «record».now))) }
    ensures has_spelling { OnOk result (IsDcRecord (record_in «record».now)) }
    ensures refused { OnErr result (out.new.items ≡ out.old.items) }
    ensures cause { IfErr result (λ refusal. refusal ≡ Refusal.NoMemory) }
    ensures room { OnErr result
        (vec_capacity out.old < vec_len out.old + length (frame (dc_record_bytes (record_in «record».now)))) }
{
    let Some(length) = frame_len(record) else {
        return Err(Refusal::NoMemory);
    };
    out.reserve(length)?;
    put_number(out, (length - HEADER_LEN) as u64);
    put_body(out, record);
    Ok(())
}

/// The record whose frame begins at a place, and the place after it. Images take memory.
pub fn take_dc_record(alloc: Global, bytes: &[u8], at: usize) -> Result<Taken<DcRecord>, Refusal>
    // What is taken stands there.
    ensures found { IfOk result (λ taken.
        IfTaken taken (IsThere DcRecord dc_record_bytes IsDcRecord at (drop at bytes.now))) }
    // What stands there is taken, whatever follows.
    ensures only { IfOk result (λ taken. (r : DcRecord) (rest : List ℕ) → IsDcRecord r
        → drop at bytes.now ≡ frame (dc_record_bytes r) ++ rest
        → taken ≡ Taken.Record r (at + length (frame (dc_record_bytes r)))) }
    ensures short { IfOk result (λ taken. (taken ≡ Taken.Short) ↔ IsCut any_length (drop at bytes.now)) }
    ensures bad { IfOk result (λ taken. IfBad taken (λ place. place ≡ at)) }
    ensures cause { IfErr result (λ refusal. refusal ≡ Refusal.NoMemory) }
    // Memory is refused only for a whole frame of a kind that has an image.
    ensures memory { IfErr result (λ _.
        IsFrameOf any_length (λ body. HasKind 2 body ⊎ HasKind 3 body) (drop at bytes.now)) }
{
    let taken = take_framed(alloc, bytes, at, u64::MAX)?;
    Ok(taken)
}

/// No record's frame begins another's, so what was written is read back, whatever follows it.
pub fn dc_record_spelling_law()
    ensures one { (a b : DcRecord) (x y : List ℕ) → FitsFrame a → FitsFrame b
        → frame (dc_record_bytes a) ++ x ≡ frame (dc_record_bytes b) ++ y → (a ≡ b) × (x ≡ y) }
    // A log's bytes are those of one list of records.
    ensures all { (rs qs : List DcRecord) → AllByRecursion FitsFrame rs → AllByRecursion FitsFrame qs
        → flat_map (λ r. frame (dc_record_bytes r)) rs ≡ flat_map (λ r. frame (dc_record_bytes r)) qs → rs ≡ qs }
{}

/// How many bytes the record's frame takes. None where that is 2 to the power of 64 or more.
#[tactic(auto, unfolding(crate::specs::DcRecords::dc_record_bytes), using(crate::proofs::DcRecords::dc_record_lengths))]
fn frame_len(record: &DcRecordRef<'_>) -> Option<usize>
    requires { IsOrderedDcRecord (record_in «record».now) }
    ensures some { IfSome result (λ len. len ≡ 8 + length (dc_record_bytes (record_in «record».now))) }
    ensures spelled { OnSome result (IsDcRecord (record_in «record».now)) }
    ensures none { IfNone result (2 ^ 64 ≤ 8 + length (dc_record_bytes (record_in «record».now))) }
{
    match record {
        DcRecordRef::Accept { .. } => Some(17),
        DcRecordRef::Split { cut, right, .. } => {
            let Some(len) = leaf_image_len(right) else {
                return None;
            };
            len.checked_add(17 + key_len(cut))
        }
        DcRecordRef::Merge { merged, .. } => {
            let Some(len) = leaf_image_len(merged) else {
                return None;
            };
            len.checked_add(25)
        }
    }
}

#[tactic(auto, unfolding(crate::specs::DcRecords::dc_record_bytes))]
fn put_body(out: &mut Vec<u8>, record: &DcRecordRef<'_>)
    requires { HasRoom out.old (dc_record_bytes (record_in «record».now)) }
    ensures { Puts out.old out.new (dc_record_bytes (record_in «record».now)) }
{
    match record {
        DcRecordRef::Accept { session } => {
            put_byte(out, 1);
            put_number(out, *session);
        }
        DcRecordRef::Split { left, cut, right } => {
            put_byte(out, 2);
            put_number(out, *left);
            put_text(out, cut.as_bytes());
            put_image(out, right);
        }
        DcRecordRef::Merge {
            left,
            right,
            merged,
        } => {
            put_byte(out, 3);
            put_number(out, *left);
            put_number(out, *right);
            put_image(out, merged);
        }
    }
}

fn take_accept<'a>(bytes: &'a [u8], record: &mut DcRecord) -> Option<&'a [u8]>
    ensures { Gives (λ rest. («record».new, rest.now)) result (mapped (λ session. DcRecord.Accept session) number_at bytes.now) }
{
    let (session, rest) = take_number(bytes)?;
    *record = DcRecord::Accept { session };
    Some(rest)
}

fn take_split<'a>(alloc: Global, bytes: &'a [u8], record: &mut DcRecord) -> Result<&'a [u8], Fault>
    ensures { Finds (λ rest. («record».new, rest.now)) result
        (mapped (λ p. DcRecord.Split p.0 p.1.0 p.1.1) (pair number_at (pair key_at image_at)) bytes.now) }
{
    let Some((left, rest)) = take_number(bytes) else {
        return Err(Fault::Outside);
    };
    let Some((cut, rest)) = take_key(rest) else {
        return Err(Fault::Outside);
    };
    let (right, rest) = take_image(alloc, rest)?;
    *record = DcRecord::Split { left, cut, right };
    Ok(rest)
}

fn take_merge<'a>(alloc: Global, bytes: &'a [u8], record: &mut DcRecord) -> Result<&'a [u8], Fault>
    ensures { Finds (λ rest. («record».new, rest.now)) result (mapped (λ p. DcRecord.Merge p.0 p.1.0 p.1.1) merge_at bytes.now) }
{
    let Some((left, rest)) = take_number(bytes) else {
        return Err(Fault::Outside);
    };
    let Some((right, rest)) = take_number(rest) else {
        return Err(Fault::Outside);
    };
    let (merged, rest) = take_image(alloc, rest)?;
    if merged.id == left {
        *record = DcRecord::Merge {
            left,
            right,
            merged,
        };
        Ok(rest)
    } else {
        Err(Fault::Outside)
    }
}

#[tactic(auto, unfolding(crate::specs::Reading::dc_record_at))]
fn take_fields<'a>(alloc: Global, bytes: &'a [u8], record: &mut DcRecord) -> Result<&'a [u8], Fault>
    ensures found { Finds (λ rest. («record».new, rest.now)) result (dc_record_at bytes.now) }
    ensures memory { IfRefused result (HasKind 2 bytes.now ⊎ HasKind 3 bytes.now) }
{
    let Some((kind, rest)) = bytes.split_first() else {
        return Err(Fault::Outside);
    };
    match *kind {
        1 => match take_accept(rest, record) {
            Some(rest) => Ok(rest),
            None => Err(Fault::Outside),
        },
        2 => take_split(alloc, rest, record),
        3 => take_merge(alloc, rest, record),
        _ => Err(Fault::Outside),
    }
}

impl Framed for DcRecord {
    ghost use Rattle.std.specs.Prelude.{◌⊎◌};
    ghost use Rattle.codec.specs.Frames.{HasKind};
    ghost use Rattle.codec.specs.Reading.{dc_record_at};

    ghost read_at = { dc_record_at };

    ghost takes_memory = { λ body. HasKind 2 body ⊎ HasKind 3 body };

    type Memory = Global;

    type Refused = AllocError;

    fn blank() -> DcRecord {
        DcRecord::Accept { session: 0 }
    }

    fn take_all(memory: Global, body: &[u8], record: &mut DcRecord) -> Result<bool, AllocError> {
        match take_fields(memory, body, record) {
            Ok(rest) => Ok(rest.is_empty()),
            Err(Fault::Outside) => Ok(false),
            Err(Fault::Memory) => Err(AllocError),
        }
    }
}
