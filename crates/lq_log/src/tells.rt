//! What a step tells of a seat's view, and how a view is cut in two: the caller's proof picks it, where the call is made at `Brand`.
use std::marker::Brand;

/// What a step tells of the view.
pub trait Tells<S, V> {
    ghost use Rattle.std.specs.Prelude.{ℕ};
    ghost use Rattle.atomic_table.specs.Table.{Me, Step};

    // Of the step, the seat before, the number found (at a store, the number stored) and the seat after.
    ghost told: { Step S → Me S V → ℕ → Me S V → Type 0 };
}

/// With no pick, a step tells nothing.
impl<S, V> Tells<S, V> for Brand {
    ghost use Rattle.std.specs.Prelude.{⊤};

    ghost told = { λ _ _ _ _. ⊤ };
}

/// How a view is cut in two.
pub trait Cuts<V> {
    ghost left: { V → V };

    ghost right: { V → V };
}

/// With no pick, each seat has the whole view.
impl<V> Cuts<V> for Brand {
    ghost left = { λ v. v };

    ghost right = { λ v. v };
}
