//! A new tap.
ghost use Rattle.std.specs.Prelude.{◌≡◌, ◌<◌, ◌≤◌, [], IfOk};
ghost use Rattle.lq_tap.specs.Views.{first_view};
ghost use Rattle.lq_tap.specs.Sees.{view, steps, setup, IsReaderOf, IsMadeFor};

use crate::shared::{Tap, TapSeat};
use crate::view::{About, Consumer};
use lq_log::Logged;
use lq_model::NoMemory;
use std::alloc::Global;

impl Tap {
    /// An empty ring of `len` slots for `packets` packets of `senders` senders, and the reader's seat. All its memory is taken
    /// here. The sender of a packet is its number modulo `senders`.
    pub fn make(
        alloc: Global,
        packets: u32,
        len: u32,
        senders: u32,
    ) -> Result<(Tap, TapSeat), NoMemory>
        requires packets { packets ≤ 1000000 }
        requires len { (0 < len) × (len ≤ 4096) }
        requires senders { (0 < senders) × (senders ≤ 8) }
        ensures tap { IfOk result (λ t. IsMadeFor packets len senders t.0) }
        ensures seat { IfOk result (λ t. IsReaderOf t.0 t.1 × (view t.1 ≡ first_view (setup t.0)) × (steps t.1 ≡ [])) }
    {
        let about = About {
            packets,
            len,
            senders,
        };
        let Ok(words) = Vec::from_elem(alloc, 0u64, 32 + len as usize) else {
            return Err(NoMemory);
        };
        let Ok(mut slots) = Vec::with_capacity(alloc, 1) else {
            return Err(NoMemory);
        };
        slots.push_reserved(Consumer { head: 0, tail: 0 });
        match Logged::new(alloc, words.as_slice(), slots, &about) {
            Ok((table, seat)) => Ok((
                Tap {
                    table,
                    packets,
                    len,
                    senders,
                },
                TapSeat { seat },
            )),
            Err(_) => Err(NoMemory),
        }
    }
}
