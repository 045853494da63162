//! The leaf law, the contract of a function that does nothing.
ghost use Rattle.dc_leaf.specs.Honest.{LeafLaw};

/// An honest leaf stays honest where it performs the log's next number on a key, where its low number rises over
/// captured ones, where it is cut and where two are joined. Once what it did above an end is taken back it is
/// honest for the log up to that end.
pub fn leaf_law()
    ensures { LeafLaw }
{}
