//! What stands before a block.

#[derive(Clone, Copy)]
pub(crate) struct Before {
    /// How many bytes of the file.
    pub(crate) place: usize,
    /// Their checksum. That of no byte is the store's number.
    pub(crate) sum: u64,
    /// Whether a block of version 1 may follow: nothing but others of it stand before, in a store that began as version 1.
    pub(crate) takes_old: bool,
}
