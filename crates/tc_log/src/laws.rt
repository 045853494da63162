//! What is true of a device after a crash, and of what is opened from it.
ghost use Rattle.tc_log.specs.Crashed.{CrashesLeaveLogs, OpensOnce, NeverBad};

/// A crash leaves the whole frames of a beginning of the log that has all stable records, and perhaps a part of the
/// next one's. Bytes are those of one log only, and opening them is refused for want of memory or by a failing device,
/// and never for what they are.
pub fn crash_law()
    ensures left { CrashesLeaveLogs }
    ensures once { OpensOnce }
    ensures good { NeverBad }
{}
