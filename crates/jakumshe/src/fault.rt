//! How a call ends.
ghost use Rattle.std.specs.Prelude.{◌≡◌, pos, OnOk, IfErr};
ghost use Rattle.jakumshe.specs.Statuses.{status, fault_of, renewal_fault, EndsWithStatus};
ghost use Rattle.jakumshe.specs.declared.fault.Fault.TheVariants.{Refused};

use node_store::Cause;
use record_key::Refusal;

/// The status of a call that was done.
pub const DONE: i32 = 0;

/// Why a call wasn't done, or had no effect.
#[derive(Clone, Copy, Drop)]
pub enum Fault {
    /// The kernel refused it. The first numbers are the refusals' own.
    Refused(Refusal),
    /// The handle has no node.
    Closed,
    /// The handle has a node already.
    Open,
    /// There is a record at the key of an insert.
    Exists,
    /// There is none at the key of an update, a delete, an addition or a read.
    NoRecord,
    /// The value at the key of an addition is no number.
    NotNumber,
    /// The node settled and told nothing of the call.
    Untold,
    /// An answer in a log isn't what its operation gets.
    WrongAnswer,
    /// A log tells of pages that aren't there.
    Checkpoint,
    /// A block of a log's file isn't what was written.
    Damaged,
    /// A transaction is open.
    Active,
}

impl Fault {
    /// The status of a call that ends so: 1 to 20 of a refusal, 33 to 41 and 45 of another fault. 32 tells of a null pointer
    /// and 46 of a store's node, and are given by the header alone; 42 to 44 are of a store's files, which C opens.
    pub fn status(self) -> i32
        ensures { result ≡ pos (status self) }
    {
        match self {
            Fault::Refused(refusal) => i32::from(refusal.number()),
            Fault::Closed => 33,
            Fault::Open => 34,
            Fault::Exists => 35,
            Fault::NoRecord => 36,
            Fault::NotNumber => 37,
            Fault::Untold => 38,
            Fault::WrongAnswer => 39,
            Fault::Checkpoint => 40,
            Fault::Damaged => 41,
            Fault::Active => 45,
        }
    }
}

impl From<Refusal> for Fault {
    ghost from_gives = { λ refusal fault. fault ≡ Refused refusal };

    fn from(refusal: Refusal) -> Fault {
        Fault::Refused(refusal)
    }
}

/// Why a node isn't opened on a log.
pub fn fault_of(cause: Cause) -> Fault
    ensures { result ≡ fault_of cause }
{
    match cause {
        Cause::Refused(refusal) => Fault::Refused(refusal),
        Cause::Checkpoint(_) => Fault::Checkpoint,
        Cause::WrongAnswer(_) => Fault::WrongAnswer,
    }
}

/// Why a node isn't renewed that has come to rest: it is only told NotNow where a transaction is open.
pub fn renewal_fault(refusal: Refusal) -> Fault
    ensures { result ≡ renewal_fault refusal }
{
    match refusal {
        Refusal::NotNow => Fault::Active,
        refusal => Fault::Refused(refusal),
    }
}

/// The status of a call that gives nothing but how it ended.
pub fn status_of(ended: Result<(), Fault>) -> i32
    ensures status { EndsWithStatus result ended }
    ensures done { OnOk ended (result ≡ pos 0) }
    ensures fault { IfErr ended (λ fault. result ≡ pos (status fault)) }
{
    match ended {
        Ok(()) => DONE,
        Err(fault) => fault.status(),
    }
}

/// The name of a status, at most 15 bytes.
pub fn name_of(status: i32) -> &'static str {
    match status {
        DONE => "Done",
        32 => "Null",
        33 => "Closed",
        34 => "Open",
        35 => "Exists",
        36 => "NoRecord",
        37 => "NotNumber",
        38 => "Untold",
        39 => "WrongAnswer",
        40 => "Checkpoint",
        41 => "Damaged",
        42 => "Locked",
        43 => "NotAStore",
        44 => "Version",
        45 => "Active",
        46 => "Stored",
        _ => match refusal_of(status) {
            Some(refusal) => refusal.name(),
            None => "Unknown",
        },
    }
}

/// The refusal of this number. What it tells beside that is left at 0.
fn refusal_of(number: i32) -> Option<Refusal> {
    Some(match number {
        1 => Refusal::NoMemory,
        2 => Refusal::Busy(0),
        3 => Refusal::NotOpen,
        4 => Refusal::Unanswered,
        5 => Refusal::RollingBack,
        6 => Refusal::Redoing,
        7 => Refusal::BadSavepoint,
        8 => Refusal::Stale,
        9 => Refusal::NotConnected,
        10 => Refusal::Device,
        11 => Refusal::EmptyKey,
        12 => Refusal::TooLong,
        13 => Refusal::BadRange,
        14 => Refusal::Full,
        15 => Refusal::BeyondStable,
        16 => Refusal::Unsent,
        17 => Refusal::BadScript(0),
        18 => Refusal::NotNow,
        19 => Refusal::BadBytes(0),
        20 => Refusal::NumbersSpent,
        _ => return None,
    })
}
