//! How a case, or a part of it, comes out.
use record_key::Refusal;

/// Whether it agrees. Refused NoMemory where it gave up, since it was refused memory itself; refused otherwise it differs.
pub type Verdict = Result<bool, Refusal>;

/// How often what was refused for want of memory is tried again.
pub const TRIES: u64 = 12;

/// How two parts come out together: they differ where one does, and gave up where one did.
pub fn both(one: Verdict, other: Verdict) -> Verdict {
    match one {
        Ok(true) => other,
        Err(Refusal::NoMemory) if matches!(other, Ok(true)) => one,
        Err(Refusal::NoMemory) => other,
        _ => Ok(false),
    }
}
