//! How many lines agree.

/// Counts of what was compared.
#[derive(Clone, Copy, PartialEq, Eq)]
pub struct Tally {
    /// Lines that were answered as they want.
    pub agree: u64,
    /// Lines that were answered otherwise.
    pub differ: u64,
    /// Calls that were refused for want of memory, and made again.
    pub memory: u64,
    /// Calls that a device refused that was made to fail, and made again.
    pub devices: u64,
}

impl Tally {
    pub const NONE: Tally = Tally {
        agree: 0,
        differ: 0,
        memory: 0,
        devices: 0,
    };

    /// One comparison more.
    pub fn count(&mut self, agrees: bool) {
        if agrees {
            self.agree = self.agree.wrapping_add(1);
        } else {
            self.differ = self.differ.wrapping_add(1);
        }
    }

    /// A call more that was refused for want of memory.
    pub fn count_memory(&mut self) {
        self.memory = self.memory.wrapping_add(1);
    }

    /// A call more that a device refused.
    pub fn count_device(&mut self) {
        self.devices = self.devices.wrapping_add(1);
    }
}
