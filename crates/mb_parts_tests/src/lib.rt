//! The tests of the lower crates: statuses, ids and limits, outboxes and calls of actors, lists of system messages,
//! journals, sources, scripts and reports, the machine, the checks of reports, and the reader of scenarios (`scenarios`).
#![tactic(auto)]

#[cfg(test)]
mod actors;
#[cfg(test)]
mod course;
#[cfg(test)]
mod doubted;
#[cfg(test)]
mod journals;
#[cfg(test)]
mod lists;
#[cfg(test)]
mod machine;
#[cfg(test)]
mod messages;
#[cfg(test)]
mod reports;
#[cfg(test)]
mod scenarios;
#[cfg(test)]
mod scripts;
#[cfg(test)]
mod seen;
#[cfg(test)]
mod sources;
#[cfg(test)]
mod statuses;
