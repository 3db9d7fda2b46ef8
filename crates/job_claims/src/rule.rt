//! The rule of the table, and its steps.
ghost use Rattle.job_claims.specs.Views.{opened, spent, after_split, split_off, joined};
ghost use Rattle.job_claims.specs.Rule.{IsKept, Draws};

use crate::seat::View;
use atomic_table::{Join, Play, Split, TableRule};
use std::snapshot::Snapshot;

/// The rule of the claims. The key has the pieces as they were opened.
pub struct Claims;

impl<T> TableRule<Option<T>, View<T>, Snapshot<Vec<T>>> for Claims {
    ghost holds = { λ key s. IsKept s };

    ghost first = { λ key. opened key.value.items };
}

/// One draw.
pub struct Draw;

impl<T> Play<Option<T>, View<T>> for Draw {
    ghost then = { Draws };
}

/// One weight goes to a new seat.
pub struct Share;

impl<T> Split<View<T>> for Share {
    ghost left = { after_split };

    ghost right = { split_off };
}

/// The whole view goes to a new seat, which holds no slot.
pub struct Move;

impl<T> Split<View<T>> for Move {
    ghost left = { λ v. spent };

    ghost right = { λ v. v };
}

/// Two views become one.
pub struct Both;

impl<T> Join<View<T>> for Both {
    ghost both = { joined };

    ghost spent = { spent };
}
