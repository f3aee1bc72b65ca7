//! The command `trace`: a schedule on the machine of the run lock.
ghost use Rattle.std.specs.Prelude.{◌≡◌, [], ℕ, List, IfOk, IfSome, Some};
ghost use Rattle.lq_model.specs.Device.{DeviceState};
ghost use Rattle.lq_files.specs.Command.{OfTrace};
ghost use Rattle.lq_top.specs.Decision.{verdict_of_command};
ghost use Rattle.lq_top.specs.Reads.{after_reads};
ghost use Rattle.lq_top.specs.Outcome.{CompletesOrStops, CompletesOrStopsOfSome, IsCommandStatus};
ghost use Rattle.lq_files.specs.Stop.{StopsFor};

use lq_files::{Status, Stop, read_schedule_file, refuse, write_output};
use lq_host::Host;
use std::alloc::Global;

/// Does the command `trace`.
pub fn trace_command<H: Host>(alloc: Global, host: &mut H, file: &str) -> Result<Status, Stop>
    requires { H.may_open file.now }
    ensures does { (have : ℕ) (before after : List DeviceState) → IfSome (H.state host.old).told (λ c.
        CompletesOrStops (verdict_of_command (Some (OfTrace file.now)) have c.files c.files) (after_reads (H.state host.old) (H.state host.new)) (H.state host.new) before after [] result) }
    ensures some { (have : ℕ) (before after : List DeviceState)
        → CompletesOrStopsOfSome (Some (OfTrace file.now)) have (H.state host.old) (H.state host.new) before after [] result }
    ensures answer { IfOk result IsCommandStatus }
    ensures handles { (H.state host.new).handles ≡ (H.state host.old).handles }
    ensures cause { StopsFor (H.fault_count host.old) (H.fault_count host.new) result }
{
    match read_schedule_file(alloc, host, file)? {
        Ok(text) => {
            write_output(host, &text)?;
            Ok(Status::Done)
        }
        Err(refusal) => refuse(alloc, host, refusal),
    }
}
