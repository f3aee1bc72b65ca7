//! What a device promises to the layers above.
ghost use Rattle.std.specs.Prelude.{◌≡◌, ◌<◌, false, OnOk, OnErr};
ghost use Rattle.lq_model.specs.Device.{DeviceState, IsConfigured, Answers};

use lq_model::{NoMemory, Params, Tx};
use std::marker::Send;

/// A device with one queue or several, which is handed packets by their numbers.
pub trait TxDevice: Send + Drop {
    /// What contracts see of it: which device it is, what it was asked, what it accepted, and more. No code reads it.
    ghost state: { Self → DeviceState };

    /// Begins anew with these parameters: nothing is asked or accepted, and there is room for at least `room` packets.
    ///
    /// Want of memory is the one refusal, and leaves the device as it was.
    fn configure(&mut self, params: &Params, room: usize) -> Result<(), NoMemory>
        ensures ok { OnOk result (IsConfigured params.now room (state self.old) (state self.new)) }
        ensures err { OnErr result (state self.new ≡ state self.old) };

    /// Offers it a packet, on one of its queues. The caller owes that there is room and that the device doesn't hang.
    ///
    /// It takes no memory. Busy is answered at most as often as the device was configured for.
    fn xmit(&mut self, queue: u32, packet: u32) -> Tx
        requires room { 0 < (state self.old).spare }
        requires alive { (state self.old).hung ≡ false }
        ensures { Answers result queue packet (state self.old) (state self.new) };

    /// Whether it hangs, as a driver whose transmit timed out does.
    fn hung(&self) -> bool
        ensures { result ≡ (state self.now).hung };
}

/// A boxed device is the device in the box.
impl TxDevice for Box<dyn TxDevice> {
    ghost state = { λ b. (TxDevice-box b).state b.value };

    fn configure(&mut self, params: &Params, room: usize) -> Result<(), NoMemory> {
        (**self).configure(params, room)
    }

    fn xmit(&mut self, queue: u32, packet: u32) -> Tx {
        (**self).xmit(queue, packet)
    }

    fn hung(&self) -> bool {
        (**self).hung()
    }
}
