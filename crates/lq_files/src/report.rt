//! What is written of a run and of a tap: what became of which packets.

use lq_fates::{Fates, TapFate};
use lq_model::Info;
use lq_pcapng::CaptureFile;
use lq_plan::Plan;

/// A run before it begins: the name that its files will begin with, its plan and its capture.
#[derive(Clone, Copy)]
pub struct RunInputs<'a> {
    pub out: &'a str,
    pub plan: &'a Plan,
    pub capture: &'a CaptureFile,
}

/// A run that is done, as its files and its lines tell it.
#[derive(Clone, Copy)]
pub struct RunReport<'a, F: Fates> {
    pub run: RunInputs<'a>,
    /// What each packet of the capture is to the rules.
    pub infos: &'a [Info],
    /// What became of it.
    pub fates: &'a F,
}

/// A tap that is done, as its files and its line tell it.
#[derive(Clone, Copy)]
pub struct TapReport<'a> {
    /// The name that its files begin with.
    pub out: &'a str,
    pub capture: &'a CaptureFile,
    /// What became of each packet of the capture.
    pub fates: &'a [TapFate],
    /// The packets that were read, in order of place.
    pub read: &'a [u32],
}
