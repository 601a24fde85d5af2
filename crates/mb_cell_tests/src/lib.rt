//! The tests of the cell: tables of what comes to an actor and what its cell makes of it, worked out by hand from the rules.
#![tactic(auto)]

#[cfg(test)]
mod cell_driver;
#[cfg(test)]
mod crowd;
#[cfg(test)]
mod ending;
#[cfg(test)]
mod envelopes;
#[cfg(test)]
mod headers;
#[cfg(test)]
mod memory;
#[cfg(test)]
mod restart;
#[cfg(test)]
mod rows;
#[cfg(test)]
mod scripted_actor;
#[cfg(test)]
mod seen;
#[cfg(test)]
mod start;
#[cfg(test)]
mod supervision;
#[cfg(test)]
mod suspension;
#[cfg(test)]
mod tables;
#[cfg(test)]
mod watching;
#[cfg(test)]
mod words;
