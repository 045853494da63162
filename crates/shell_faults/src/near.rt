//! The name that was meant by another.
use crate::forms::{FORMS, parts_of};
use std::alloc::{AllocError, Global};
use std::str;
use strsim::osa_distance;

/// A name that is longer is like none.
const LONGEST: usize = 16;

/// The name of a line that is nearest to this one, if one is near: a letter or two of it are missing, wrong, too many or
/// in the other's place.
pub(crate) fn nearest(alloc: Global, name: &[u8]) -> Result<Option<&'static str>, AllocError> {
    if name.len() > LONGEST {
        return Ok(None);
    }
    let mut lower = Vec::new(alloc);
    for byte in name {
        lower.push(byte.to_ascii_lowercase())?;
    }
    match str::from_utf8(lower.as_slice()) {
        Ok(name) => nearest_to(alloc, name),
        Err(_) => Ok(None),
    }
}

fn nearest_to(alloc: Global, name: &str) -> Result<Option<&'static str>, AllocError> {
    let mut nearest = None;
    // Half of a short name may not be wrong.
    let mut most = (name.len() / 2).min(2);
    for form in FORMS.lines() {
        let (known, _) = parts_of(form);
        let edits = osa_distance(alloc, name, known)?;
        if edits <= most && (nearest.is_none() || edits < most) {
            nearest = Some(known);
            most = edits;
        }
    }
    Ok(nearest)
}
