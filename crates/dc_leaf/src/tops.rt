//! The top entry of a leaf.
ghost use Rattle.std.specs.Prelude.{◌≡◌};
ghost use Rattle.dc_leaf.specs.Tops.{top, is_within};

use crate::leaf::Leaf;

impl Leaf {
    /// The greatest number of its entries, 0 where there are none. Takes no memory.
    pub fn top(&self) -> u64
        ensures { result ≡ top self.now }
    {
        self.ab.entries().top()
    }

    /// Whether it has no entry above the known end. Takes no memory.
    pub fn is_within(&self, known: u64) -> bool
        ensures { result ≡ is_within known self.now }
    {
        self.top() <= known
    }
}
