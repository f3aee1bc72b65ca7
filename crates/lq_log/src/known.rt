//! What a seat knows with its steps, and the rule over what it knows without them.
use atomic_table::TableRule;
use std::marker::{Model, PhantomData};

/// What a seat knows: a view, as `V` has it, and the steps that it made. No value of it is made.
pub struct Knows<V> {
    view: V,
}

impl<V> Model for Knows<V> {
    ghost use Rattle.lq_log.specs.Made.{WithSteps, made_nothing};

    ghost Value = { WithSteps V };

    ghost view = { λ k. made_nothing k.view };
}

/// The rule `P`, over the views of seats that know their steps, too.
pub struct Logging<P> {
    of: PhantomData<P>,
}

impl<S, V, K, P: TableRule<S, V, K>> TableRule<S, Knows<V>, K> for Logging<P> {
    ghost use Rattle.lq_log.specs.Made.{OfViews, made_nothing};

    ghost holds = { λ k. OfViews (P.holds k) };

    ghost first = { λ k. made_nothing (P.first k) };
}
