//! The laws of leaves, the contracts of functions that do nothing.
ghost use Rattle.dc_tree.specs.TreeLaw.{TreeLaw};
ghost use Rattle.dc_tree.specs.Steps.{TreeUndoLaw};

/// The leaves are one table: each key has its leaf, an operation at that leaf does what it does to the table, and
/// a split, a merge and a raise leave the table as it was and honest leaves honest.
pub fn tree_law()
    ensures { TreeLaw }
{}

/// Steps among leaves leave what their operations alone leave; and leaves on which an operation, then any splits,
/// merges, raises and operations on other keys, and then the operation's inverse were done hold the rows of the
/// others alone.
pub fn tree_undo_law()
    ensures { TreeUndoLaw }
{}
