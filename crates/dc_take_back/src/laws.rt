//! The laws, each the contract of a function that does nothing.
ghost use Rattle.dc_take_back.specs.Performed.{BackIsReplayed};
ghost use Rattle.dc_take_back.specs.Listed.{TakenIsReplayed, KeptAreAnswered};
ghost use Rattle.dc_take_back.specs.Example.{AddIsTakenBack};

/// Performances that are taken back, each one that may pass by all that are newer and left, leave what the others give.
pub fn performed_law()
    ensures { BackIsReplayed }
{}

/// A leaf whose entries on a key above an end are those of the performances there, which came in the order of their
/// numbers but for Adds among Adds, has at the key, once these entries are taken back, what the other performances
/// leave there.
pub fn listed_law()
    ensures { TakenIsReplayed }
{}

/// Each of the others was answered as it would have been without those above the end.
pub fn kept_law()
    ensures { KeptAreAnswered }
{}

/// An example: 5, to which 3 was added under number 9 and then 10 under number 4, is 15 once what is above 4 is taken
/// back.
pub fn add_taken_back()
    ensures { AddIsTakenBack }
{}
