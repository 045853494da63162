//! What a log that a crash left opens as.
ghost use Rattle.tc_core.specs.Opened.{OpenedIsKept, OpenedIsOpened, CrashedIsKept, OpensAgain, SameAreLost};

/// A legal log opens as a transaction component, and as one that its bytes may open as.
pub fn opened_law()
    ensures kept { OpenedIsKept }
    ensures opened { OpenedIsOpened }
{}

/// What a crash keeps of a transaction component is one, whose redo starts no later than the other's would have.
pub fn crashed_law()
    ensures kept { CrashedIsKept }
{}

/// Whatever the bytes of a log are opened as, it is what the log opens as but for the order of losers and of locks; and
/// of two such the same transactions are losers.
pub fn opened_again_law()
    ensures again { OpensAgain }
    ensures lost { SameAreLost }
{}
