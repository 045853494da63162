//! The order of bytes, eight at a time.
ghost use Rattle.std.specs.Prelude.{◌≡◌, ◌+◌, ◌≤◌, length, take, drop};
ghost use Rattle.std.specs.Ordering.{nat_cmp};
ghost use Rattle.std.specs.Cmp.Lexicographic.{slice_cmp};

use byteorder::{BigEndian, ByteOrder};
use std::cmp::Ordering;

/// Which of two texts comes first, by their bytes, a beginning first. They are compared eight bytes at a time, and at last
/// the last eight of the shorter one's length, of which some were compared before.
pub fn order_of_texts(a: &[u8], b: &[u8]) -> Ordering
    ensures { result ≡ slice_cmp nat_cmp a.now b.now }
{
    let both = a.len().min(b.len());
    if both < 8 {
        return a.cmp(b);
    }
    let mut at = 0;
    while at < both - 8 {
        let found = order_of_words(a, b, at);
        if found.is_ne() {
            return found;
        }
        at += 8;
    }
    let found = order_of_words(a, b, both - 8);
    if found.is_ne() {
        return found;
    }
    a.len().cmp(&b.len())
}

/// The order of the eight bytes from a place on.
fn order_of_words(a: &[u8], b: &[u8], at: usize) -> Ordering
    requires first { at + 8 ≤ length a.now }
    requires second { at + 8 ≤ length b.now }
    ensures { result ≡ slice_cmp nat_cmp (take 8 (drop at a.now)) (take 8 (drop at b.now)) }
{
    BigEndian::read_u64(&a[at..]).cmp(&BigEndian::read_u64(&b[at..]))
}
