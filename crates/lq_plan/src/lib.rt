//! Plans: what a run does with its senders, stations and events, read from a TOML document.
//!
//! [`read_plan`] answers exactly the definition `plan_of` of `specs/Reading.antt`, for all bytes: the plan, or the least
//! of the reasons for which the text is none. The keys with their ranges stand in a table, `specs/Keys.antt`, and
//! `specs/Faults.antt` has the four tests of a table's keys and values.
//!
//! ```text
//! let plan = read_plan(alloc, b"senders = 2\n[[station]]\nlen = 8\n")?;
//! assert_eq!(plan.station(0).len, 8);
//! ```
#![tactic(auto)]

mod document;
mod faults;
mod generated;
mod keys;
mod laws;
mod openings;
mod order;
mod packets;
mod plan;
mod reader;
mod refusal;
mod values;

pub use generated::generated_plan;
pub use laws::{
    accepts_within_limits, version_1_stays, version_2_stays, version_3_stays, version_4_stays,
};
pub use lq_model::{EventKind, EventPlan, Irq, Params, PlanReason, Split, Spread, StationPlan};
pub use openings::{Openings, is_by_time};
pub use order::is_at;
pub use packets::infos;
pub use plan::{MAX_STATIONS, Plan};
pub use reader::read_plan;
pub use refusal::PlanRefusal;
