//! How many slots of a band's ring are emptied at once.
ghost use Rattle.std.specs.Prelude.{◌≡◌};
ghost use Rattle.lq_model.specs.Band.{batch};

/// How many slots of a ring of this size are emptied at once, as `__ptr_ring_set_size` of
/// include/linux/ptr_ring.h sets it for cache lines of 64 bytes and pointers of 8 bytes.
pub fn batch(size: u32) -> u32
    ensures { result ≡ batch size }
{
    if size >= 32 { 16 } else { 1 }
}
