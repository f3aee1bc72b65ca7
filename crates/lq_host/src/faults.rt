// The count of a host's faults.
ghost use Rattle.std.specs.Prelude.{◌≡◌, ◌≤◌, ◌+◌, ◌-◌, ◌^◌, min};
ghost use Rattle.lq_host.specs.Host.{Rose};

// Counts a fault. The count stands still at `u64::MAX`.
pub(crate) fn raise(faults: &mut u64)
    ensures count { faults.new ≡ min (faults.old + 1) (2 ^ 64 - 1) }
    ensures rose { Rose faults.old faults.new }
    ensures later { faults.old ≤ faults.new }
{
    *faults = faults.saturating_add(1);
}
