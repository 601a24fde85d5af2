//! The tests of a running system that takes steps which are chosen: worked examples, whose reports stand in docs/SEMANTICS.md and examples/, by
//! schedules that are written down; each refusal of a step; the numbers of a state; and all reports that the orders of steps lead to.
#![tactic(auto)]

mod case;
#[cfg(test)]
mod explored;
mod planned_actor;
#[cfg(test)]
mod races;
#[cfg(test)]
mod refusals;
#[cfg(test)]
mod states;
#[cfg(test)]
mod supervision;
