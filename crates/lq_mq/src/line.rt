//! The line of a multi-queue root.
ghost use Rattle.std.specs.Prelude.{◌≡◌, IfOk};
ghost use Rattle.lq_mq.specs.Line.{mq_text};

use lq_model::NoMemory;
use std::alloc::Global;

/// The line that tells how many queues root `j` has and how many packets they sent.
///
/// # NoMemory
///
/// There was no room for it.
pub fn mq_text(alloc: Global, j: u32, queues: u32, sent: u32) -> Result<Vec<u8>, NoMemory>
    ensures { IfOk result (λ text. text.items ≡ mq_text j queues sent) }
{
    match format!(in alloc; "mq {j} queues {queues} sent {sent}\n") {
        Ok(text) => Ok(text.into_bytes()),
        Err(_) => Err(NoMemory),
    }
}
