//! A leaf and its image.
ghost use Rattle.std.specs.Prelude.{◌≡◌};
ghost use Rattle.codec.specs.Images.{image_in, IsImage};
ghost use Rattle.dc_recovery.specs.Images.{image_of, leaf_of};

use codec::{LeafImage, LeafImageRef};
use dc_ab_lsn::AbLsn;
use dc_leaf::Leaf;

/// The leaf's parts, to be written.
pub fn image_of(leaf: &Leaf) -> LeafImageRef<'_>
    ensures { image_in result ≡ image_of leaf.now }
{
    LeafImageRef {
        id: leaf.id(),
        last: leaf.last(),
        low: leaf.low(),
        low_fence: leaf.low_fence(),
        high_fence: leaf.high_fence(),
        rows: leaf.rows(),
        entries: leaf.entries(),
    }
}

/// The leaf that an image keeps. Takes no memory.
pub fn leaf_of(image: LeafImage) -> Leaf
    requires { IsImage image }
    ensures { result ≡ leaf_of image }
{
    Leaf::from_parts(
        image.id,
        image.last,
        (image.low_fence, image.high_fence),
        image.rows.into_buffer(),
        AbLsn::from_parts(image.low, image.entries),
    )
}
