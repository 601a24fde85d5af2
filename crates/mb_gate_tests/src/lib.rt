//! The tests of the gates: on one thread, two threads that contend for an actor, one that holds it while two send, and claims
//! that go to other threads by a queue. And those of queues and of sending (`sends`), and of the pool (`pools`): one crate for all, since
//! each reads the libraries below it twice before its first proof.
#![tactic(auto)]

#[cfg(test)]
mod alone;
#[cfg(test)]
mod calls;
#[cfg(test)]
mod contend;
#[cfg(test)]
mod fresh_claim;
#[cfg(test)]
mod holding;
#[cfg(test)]
mod no_wait;
#[cfg(test)]
mod order_check;
#[cfg(test)]
mod pools;
#[cfg(test)]
mod refused;
#[cfg(test)]
mod sends;
#[cfg(test)]
mod sent_claim;
#[cfg(test)]
mod single;
#[cfg(test)]
mod steps;
#[cfg(test)]
mod story;
#[cfg(test)]
mod test_home;
#[cfg(test)]
mod three;
#[cfg(test)]
mod tries;
#[cfg(test)]
mod two_claims;
