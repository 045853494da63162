//! What is true of every legal log of the data component and of pages that fit it.
ghost use Rattle.std.specs.Prelude.{ℕ, List};
ghost use Rattle.history.specs.declared.record.Record.{Record};
ghost use Rattle.dc_recovery.specs.Images.{ImagesKeepLeaves, NumbersStay};
ghost use Rattle.dc_recovery.specs.Laws.{ShapesAreWellFormed, RecoveredHaveShape, ArrangedOnce, BeginningsAreSafe, CutsKeepHonest};
ghost use Rattle.dc_recovery.specs.Ready.{LegalIsReadable, LeavesStayCurrent, HalvesFit, PagesStayFit, LowIsRecovered, HonestIsRecovered, BoundedIsRecovered};
ghost use Rattle.dc_recovery.specs.Leaves.{LeavesAreTheShapes};
ghost use Rattle.dc_recovery.specs.Example.{ExampleHolds};

/// A leaf's image keeps all of the leaf, and is in order.
pub fn image_law()
    ensures { ImagesKeepLeaves }
{}

/// A leaf's numbers stay ones that can be spelled, as long as the new ones can.
pub fn numbers_law()
    ensures { NumbersStay }
{}

/// The parts that a legal log gives tile the keys, so each key lies in exactly one leaf's.
pub fn shape_law()
    ensures { ShapesAreWellFormed }
{}

/// The leaves that are recovered are those of the whole log's shape, with its fences, whatever the ages of
/// their pages.
pub fn recovery_law()
    ensures { RecoveredHaveShape }
{}

/// The leaves that are recovered tile the keys in one order, and in no other.
pub fn arranged_law()
    ensures { ArrangedOnce }
{}

/// A beginning of a legal log that has all that was forced is legal, and the pages fit it.
pub fn beginning_law()
    ensures { BeginningsAreSafe }
{}

/// Recovery finds each old leaf that a record of a legal log names.
pub fn readable_law()
    ensures { LegalIsReadable }
{}

/// A cut inside an honest leaf's fences leaves it honest.
pub fn cut_law()
    ensures { CutsKeepHonest }
{}

/// A leaf as the log has it stays so as the log grows.
pub fn current_law()
    ensures { LeavesStayCurrent }
{}

/// A record fits where it holds a half of a leaf that the log has, or two neighbours together.
pub fn halves_law()
    ensures { HalvesFit }
{}

/// A running component's leaves stay those of the shape, in its order, as they are cut and merged.
pub fn leaves_law()
    ensures { LeavesAreTheShapes }
{}

/// Pages go on to fit the log as it grows, is forced and is cut by a crash, and as leaves are written.
pub fn fit_law()
    ensures { PagesStayFit }
{}

/// After any crash each recovered leaf is honest, if those that recovery may take are.
pub fn honest_law()
    ensures { (log : List Record) → HonestIsRecovered log }
{}

/// And each has captured nothing above a bound, if those have, so as the transactions' log grows beyond it
/// they stay honest.
pub fn bounded_law()
    ensures { BoundedIsRecovered }
{}

/// After any crash each recovered leaf has a low number of at least a checkpoint's, if those that recovery
/// may take have.
pub fn low_law()
    ensures { (l : ℕ) → LowIsRecovered l }
{}

/// There are legal logs with cuts and a merge, and pages of different ages that fit one.
pub fn example_law()
    ensures { ExampleHolds }
{}
