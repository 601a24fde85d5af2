//! The tests of the pictures, the JSON lines, the merged order and the turns of a run, and of traces without a scenario, on reports made by hand.
#![tactic(auto)]

#[cfg(test)]
mod lines;
#[cfg(test)]
mod made;
#[cfg(test)]
mod orders;
#[cfg(test)]
mod own_systems;
#[cfg(test)]
mod pictures;
#[cfg(test)]
mod turns;
