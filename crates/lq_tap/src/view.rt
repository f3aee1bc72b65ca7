//! What a seat knows, and the rule.
use atomic_table::TableRule;
use std::marker::Model;

/// What a seat knows. No value of it is made.
pub struct Knowledge;

impl Model for Knowledge {
    ghost use Rattle.lq_tap.specs.Views.{View, spent_view};

    ghost Value = { View };

    ghost view = { λ _. spent_view };
}

/// What the rule is told when the tap is made.
#[derive(Clone, Copy)]
pub struct About {
    pub packets: u32,
    pub len: u32,
    pub senders: u32,
}

/// How far the consumer is: `consumer_head` and `consumer_tail` of a `ptr_ring`.
#[derive(Clone, Copy)]
pub struct Consumer {
    pub head: u32,
    pub tail: u32,
}

/// What the reader takes the consumer lock for.
#[derive(Clone, Copy)]
pub enum Purpose {
    /// To take a new batch.
    Batch,
    /// To give packets of the last batch back.
    Return,
}

pub struct TapRule;

impl TableRule<Consumer, Knowledge, About> for TapRule {
    ghost use Rattle.lq_tap.specs.Rule.{Rule};
    ghost use Rattle.lq_tap.specs.Views.{first_view};
    ghost use Rattle.lq_tap.specs.Keyed.{keyed_setup};

    ghost holds = { λ k. Rule (keyed_setup k) };

    ghost first = { λ k. first_view (keyed_setup k) };
}
