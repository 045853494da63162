//! Devices in memory that fail once.
ghost use Rattle.std.specs.Prelude.{◌≡◌, []};
ghost use Rattle.std.specs.FinMap as map;

use record_key::Refusal;
use stable::{CrashLog, CrashPages, MemLog, MemPages};
use std::alloc::Global;
use test_calls::{Fault, UNREADABLE, Words};

/// An empty log.
pub fn log_with(alloc: Global, fault: Fault) -> MemLog
    ensures { (result.forced ≡ []) × (result.pending ≡ []) }
{
    let mut log = MemLog::new(alloc);
    if let Fault::Log(call) = fault {
        log.fail_at(call.max(1));
    }
    log
}

/// No pages.
pub fn pages_with(alloc: Global, fault: Fault) -> MemPages
    ensures { result.pages ≡ map.empty }
{
    let mut pages = MemPages::new(alloc);
    if let Fault::Pages(call) = fault {
        pages.fail_at(call.max(1));
    }
    pages
}

/// `log N` or `pages N`.
pub fn fault_of(words: &mut Words) -> Result<Fault, Refusal> {
    match words.word() {
        "log" => Ok(Fault::Log(words.number()?)),
        "pages" => Ok(Fault::Pages(words.number()?)),
        _ => Err(UNREADABLE),
    }
}

/// Makes a call of one of the two fail.
pub fn fail(log: &mut MemLog, pages: &mut MemPages, fault: Fault) {
    match fault {
        Fault::Nowhere => {}
        Fault::Log(call) => log.fail_at(call.max(1)),
        Fault::Pages(call) => pages.fail_at(call.max(1)),
    }
}
