//! Tests of the top call over a host in memory: the worked rows as tables, each with its files and its output, and the runs of several
//! senders, whose files are checked; calls that don't come to their end: failing calls, and words, plans and captures that are refused;
//! and of what no contract says: real files, and when the gate is passed. What a contract says is not tested again; these rows show that
//! the contracts mean what they should.
#![tactic(auto)]

#[cfg(test)]
mod captures;
#[cfg(test)]
mod checks;
#[cfg(test)]
mod done;
#[cfg(test)]
mod faults;
#[cfg(test)]
mod files;
#[cfg(test)]
mod flows;
#[cfg(test)]
mod gate_passes;
#[cfg(test)]
mod gates;
#[cfg(test)]
mod generated;
#[cfg(test)]
mod holds;
#[cfg(test)]
mod links;
#[cfg(test)]
mod machine;
#[cfg(test)]
mod overlap;
#[cfg(test)]
mod pcapng;
#[cfg(test)]
mod refusals;
#[cfg(test)]
mod rows;
#[cfg(test)]
mod schedule_texts;
#[cfg(test)]
mod schedules;
#[cfg(test)]
mod senders;
#[cfg(test)]
mod swaps;
#[cfg(test)]
mod tap;
#[cfg(test)]
mod tap_gates;
#[cfg(test)]
mod times;
