//! A small reader of XML.

/// The deepest that tags may be nested.
const DEEPEST: usize = 16;

/// Whether each tag is closed in its turn, and nothing stands behind the first one's end.
pub fn is_well_formed(text: &[u8]) -> bool {
    let mut open: [&[u8]; DEEPEST] = [b""; DEEPEST];
    let mut depth = 0;
    for part in text.split(|byte| *byte == b'<').skip(1) {
        match behind(&mut open, depth, part) {
            Some(next) => depth = next,
            None => return false,
        }
    }
    depth == 0
}

/// How deep it is behind a tag and the text after it: none where the tag doesn't fit.
fn behind<'a>(open: &mut [&'a [u8]; DEEPEST], depth: usize, part: &'a [u8]) -> Option<usize> {
    let end = part.iter().position(|byte| *byte == b'>')?;
    let tag = part.get(..end)?;
    if !has_quotes(tag) || part.get(end..)?.contains(&b'"') {
        return None;
    }
    match tag {
        [b'/', name @ ..] => {
            let before = depth.checked_sub(1)?;
            if *open.get(before)? == name {
                Some(before)
            } else {
                None
            }
        }
        [.., b'/'] => Some(depth),
        _ => {
            *open.get_mut(depth)? = name_of(tag);
            depth.checked_add(1)
        }
    }
}

/// Whether each quote has an end.
fn has_quotes(tag: &[u8]) -> bool {
    tag.iter().filter(|byte| **byte == b'"').count() % 2 == 0
}

fn name_of(tag: &[u8]) -> &[u8] {
    match tag.iter().position(|byte| *byte == b' ') {
        Some(end) => tag.split_at(end).0,
        None => tag,
    }
}
