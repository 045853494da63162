//! What a half has to do with the world.
use std::io::{Read, Write};

/// Where replies come from, where requests go, and where it is told what lines come to.
#[derive(Drop)]
pub struct Wire<'a, R: Read, W: Write, T: Write> {
    pub reader: &'a mut R,
    pub writer: &'a mut W,
    pub text: &'a mut T,
}
