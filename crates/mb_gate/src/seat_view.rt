//! What a seat knows, as a type of the code.
use std::marker::Model;

/// What a seat knows. It exists in contracts alone: no value of it is made.
#[derive(Drop)]
pub struct SeatView {}

impl Model for SeatView {
    ghost use Rattle.mb_gate.specs.View.{View, blank};

    ghost Value = { View };

    ghost view = { λ _. blank };
}
