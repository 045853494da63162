//! A seat at the marks: who holds it has seen a pair of the two words.
use crate::rule::View;
use std::marker::Model;

/// A token of no bytes, made by `Marks::new`. A clause sees which marks it belongs to, whether it may raise them, the
/// greatest pair that it has seen, and how often the marks were read by it.
#[derive(Drop)]
pub struct Seat {
    pub(crate) place: atomic_table::Seat<(), View>,
}

impl Model for Seat {
    ghost use Rattle.std.specs.Prelude.{◌≡◌, []};
    ghost use Rattle.engine_marks.specs.Seen.{Seen};

    ghost Value = { Seen };

    ghost view = { λ s. record {
      marks = s.place.table_id;
      raises = s.place.me.0.raises;
      stable = s.place.me.0.seen.stable;
      low = s.place.me.0.seen.low;
      readings = s.place.me.0.readings;
    } };

    ghost invariant = { λ s. s.place.me.1 ≡ [] };
}
