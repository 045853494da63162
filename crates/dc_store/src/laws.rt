//! What is true of devices after a crash, and of what is opened from them.
ghost use Rattle.dc_store.specs.Restarts.{CrashesLeaveFrames, FramesReadOnce, RestartsGiveTheLog, RestartsAreNeverBad, BeginningsAreRecoverable, CheckpointsLast};

/// A crash leaves the whole frames of a beginning of the log that has all stable records, and perhaps a part of the
/// next one's.
pub fn crash_law()
    ensures { CrashesLeaveFrames }
{}

/// Bytes hold the frames of one log only, and hold them still once what isn't whole is cut off.
pub fn reading_law()
    ensures { FramesReadOnce }
{}

/// Where the log on the device is legal and the pages fit it, what is opened is what the log says.
pub fn restart_law()
    ensures { RestartsGiveTheLog }
{}

/// And opening is refused for want of memory or by a failing device, and never for what the devices hold.
pub fn never_bad_law()
    ensures { RestartsAreNeverBad }
{}

/// Each beginning of the log with all stable records is legal, and the pages fit it.
pub fn beginning_law()
    ensures { BeginningsAreRecoverable }
{}

/// From a checkpoint on, each leaf has a low number of at least the checkpoint's, and so has each that recovery gives
/// after any crash.
pub fn checkpoint_law()
    ensures { CheckpointsLast }
{}
