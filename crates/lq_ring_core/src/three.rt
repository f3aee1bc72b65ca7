//! The three rings of a station's bands, resized together.
ghost use Rattle.std.specs.Prelude.{◌≡◌, ◌+◌, ◌-◌, ◌<◌, ◌≤◌, ◌++◌, length, drop};
ghost use Rattle.lq_ring_core.specs.Ring.{after_resize, dropped_of};

use crate::ring::Ring;

/// How many entries a resize destroyed in each of three rings.
#[derive(Clone, Copy, Debug, PartialEq, Eq)]
pub struct Dropped {
    pub a: u32,
    pub b: u32,
    pub c: u32,
}

/// Gives three rings, those of a station's bands, the same number of slots. The destroyed entries of `a`, of `b` and
/// of `c` follow each other at the front of `dropped`.
pub fn resize_three(
    a: &mut Ring,
    b: &mut Ring,
    c: &mut Ring,
    size: u32,
    dropped: &mut [u32],
) -> Dropped
    requires positive { 0 < size }
    requires a_within_max { size ≤ a.old.max_size }
    requires b_within_max { size ≤ b.old.max_size }
    requires c_within_max { size ≤ c.old.max_size }
    requires room { a.old.size + b.old.size + c.old.size ≤ length dropped.old }
    ensures a { a.new ≡ after_resize a.old size }
    ensures b { b.new ≡ after_resize b.old size }
    ensures c { c.new ≡ after_resize c.old size }
    ensures a_count { result.a ≡ length a.old.held - size }
    ensures b_count { result.b ≡ length b.old.held - size }
    ensures c_count { result.c ≡ length c.old.held - size }
    ensures dropped { dropped.new
        ≡ dropped_of a.old size ++ dropped_of b.old size ++ dropped_of c.old size
        ++ drop (result.a + result.b + result.c) dropped.old }
{
    let from_a = a.resize(size, dropped);
    let behind_a = &mut dropped[from_a as usize..];
    let from_b = b.resize(size, behind_a);
    let from_c = c.resize(size, &mut behind_a[from_b as usize..]);
    Dropped {
        a: from_a,
        b: from_b,
        c: from_c,
    }
}
