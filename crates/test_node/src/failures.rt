//! The failures of devices that were set and may not have happened.
use dc_core::Device;
use node_laws::Event;

/// Which device may fail, and how often they do at most.
#[derive(Clone, Copy)]
pub struct Failures {
    tc_log: bool,
    dc_log: bool,
    pages: bool,
    left: u64,
}

impl Failures {
    pub fn new() -> Failures {
        Failures {
            tc_log: false,
            dc_log: false,
            pages: false,
            left: 0,
        }
    }

    /// Notes that the event set a failure. A later one of a device takes the place of an earlier one.
    pub fn set(&mut self, event: &Event) {
        match event {
            Event::FailTc { .. } => self.tc_log = true,
            Event::FailDc { device, .. } => match device {
                Device::Log => self.dc_log = true,
                Device::Pages => self.pages = true,
            },
            _ => return,
        }
        self.left = self.left.saturating_add(1).min(self.devices());
    }

    /// A device failed in this event: whether one might.
    pub fn happened(&mut self, event: &Event) -> bool {
        let might = if event.is_of_tc() {
            self.tc_log
        } else {
            self.dc_log || self.pages
        };
        if event.is_of_tc() {
            self.tc_log = false;
        } else if !(self.dc_log && self.pages) {
            self.dc_log = false;
            self.pages = false;
        }
        self.less() && might
    }

    /// A device failed somewhere in a settling: whether one might.
    pub fn happened_amid(&mut self) -> bool {
        self.less()
    }

    /// One failure less is left. Whether there was one.
    fn less(&mut self) -> bool {
        let might = self.left > 0;
        self.left = self.left.saturating_sub(1).min(self.devices());
        if self.left == 0 {
            *self = Failures::new();
        }
        might
    }

    fn devices(&self) -> u64 {
        u64::from(self.tc_log) + u64::from(self.dc_log) + u64::from(self.pages)
    }
}
