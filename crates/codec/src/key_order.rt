//! The order of keys that stand as bytes.
ghost use Rattle.std.specs.Prelude.{◌≡◌};
ghost use Rattle.record_key.specs.Order.{is_below};

use record_key::order_of_texts;

/// Whether the first text comes before the second.
pub(crate) fn is_below(low: &[u8], high: &[u8]) -> bool
    ensures { result ≡ is_below low.now high.now }
{
    order_of_texts(low, high).is_lt()
}
