//! DRAINING, the stop words and the device.
ghost use Rattle.lq_model.specs.Kept.{BlockedDraining, DeviceOpen, EndingDraining, IsInductive, LockFreeDraining, SecondScan};
ghost use Rattle.lq_model.specs.Quiet.{Moves};
ghost use Rattle.lq_model.specs.Machine.{Machine};

/// With DRAINING set alone nothing is left behind unless there is a way on, at a free run lock, where its holder is
/// about to release it, and where it is about to set DRAINING: a step of any seat keeps that.
pub fn draining_is_kept()
    ensures free { (m n : Machine) → IsInductive m → Moves m n → LockFreeDraining n }
    ensures ending { (m n : Machine) → IsInductive m → Moves m n → EndingDraining n }
    ensures blocked { (m n : Machine) → IsInductive m → Moves m n → BlockedDraining n }
{}

/// The bands are looked at once more with DRAINING clear, and the device is called only for an open queue: a step
/// of any seat keeps that.
pub fn service_is_kept()
    ensures second_scan { (m n : Machine) → IsInductive m → Moves m n → SecondScan n }
    ensures device { (m n : Machine) → IsInductive m → Moves m n → DeviceOpen n }
{}
