//! Laws of the classes, in the words of a header's fields. Each function is its contract alone and does nothing.

ghost use Rattle.std.specs.Prelude.{◌≡◌, ◌<◌, ◌*◌, ◌/◌, ◌↔◌, ℕ, List, Some};
ghost use Rattle.lq_model.specs.Class.{tos_priority, band_of, ipv4_start, ipv6_start};
ghost use Rattle.lq_class.specs.Laws.{service_priority, service_band, IsIpv4At, IsIpv6At};

/// Of all 256 types of service, the bits for low delay and high throughput alone decide the priority and the
/// band. The bits of congestion notification, the lower two, don't count.
pub fn type_of_service()
    ensures priority { (tos : ℕ) → tos < 256 → tos_priority tos ≡ service_priority tos }
    ensures band { (tos : ℕ) → tos < 256 → band_of (tos_priority tos) ≡ service_band tos }
    ensures congestion { (tos : ℕ) → tos < 256 → tos_priority tos ≡ tos_priority (tos / 4 * 4) }
{}

/// A frame has its IPv4 header exactly where a whole one of version 4 stands behind the link's own header.
pub fn ipv4_header()
    ensures { (link : ℕ) (frame : List ℕ) (start : ℕ) →
        (ipv4_start link frame ≡ Some start) ↔ IsIpv4At link frame start }
{}

/// The same of IPv6.
pub fn ipv6_header()
    ensures { (link : ℕ) (frame : List ℕ) (start : ℕ) →
        (ipv6_start link frame ≡ Some start) ↔ IsIpv6At link frame start }
{}
