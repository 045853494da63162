//! Laws of the definitions, each the contract of a function that does nothing.
ghost use Rattle.record_key.specs.Laws.{IsKeyOrder, WritesOneKey, AddsCommute};

/// Keys are totally ordered by their bytes, only equal ones tie, and a beginning comes first.
pub fn key_order_law()
    ensures { IsKeyOrder }
{}

/// A write to a table is seen at its key and nowhere else.
pub fn table_law()
    ensures { WritesOneKey }
{}

/// Adds leave the same in either order, and none changes what another is answered.
pub fn add_law()
    ensures { AddsCommute }
{}
