//! Tests of the crates below the top call: plans, packets and openings, captures in both formats, classes of frames and the hashes of
//! their flows, devices, rings on one thread, fates and counts, the list of a multi-queue root, and hosts; the calls of a station's table
//! and of a tap's on one thread; and control beside three senders that transmit on threads of their own.
//! What a contract says is not tested again; these tests show that the contracts mean what they should, that the calls succeed, and that
//! they come to an end beside one another.
#![tactic(auto)]

#[cfg(test)]
mod captures;
#[cfg(test)]
mod classes;
#[cfg(test)]
mod devices;
#[cfg(test)]
mod fates;
#[cfg(test)]
mod flows;
#[cfg(test)]
mod hosts;
#[cfg(test)]
mod joint;
#[cfg(test)]
mod openings;
#[cfg(test)]
mod packets;
#[cfg(test)]
mod pcapng;
#[cfg(test)]
mod plain;
#[cfg(test)]
mod plans;
#[cfg(test)]
mod qdisc_calls;
mod recorder;
#[cfg(test)]
mod rings;
mod seats;
#[cfg(test)]
mod tables;
#[cfg(test)]
mod tap_calls;
#[cfg(test)]
mod threads;
#[cfg(test)]
mod times;

pub use recorder::Recorder;
pub use seats::Sender;
