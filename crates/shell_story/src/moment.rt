//! Where a node is.

/// Where the node is.
#[derive(Clone, Copy)]
pub struct Moment {
    pub records: u64,
    pub stable: u64,
    /// How many sessions were started.
    pub sessions: u64,
    /// The number from which on redo looks for the next one.
    pub redo: u64,
    pub is_redoing: bool,
    /// The greatest request, and the greatest reply, that was delivered.
    pub last_request: u64,
    pub last_reply: u64,
    /// The last crash of the transaction component, and of the data component.
    pub crash: usize,
    pub dc_crash: usize,
    pub is_tc_up: bool,
    pub is_dc_up: bool,
}

pub fn first_moment() -> Moment {
    Moment {
        records: 0,
        stable: 0,
        sessions: 0,
        redo: 1,
        is_redoing: false,
        last_request: 0,
        last_reply: 0,
        crash: 0,
        dc_crash: 0,
        is_tc_up: true,
        is_dc_up: true,
    }
}
