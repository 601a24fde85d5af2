//! The deques of a handle of a stealing pool: its own, and its ports of the others.
ghost use Rattle.std.specs.Prelude.{◌≡◌, All, MatchOption, Some};
ghost use Rattle.mb_pool.specs.Moves.{TakesOne, WasEmpty};
ghost use Rattle.mb_pool.specs.Parts.{port_view};
ghost use Rattle.mb_pool.specs.Places.{ports_of, parts_of};
ghost use Rattle.mb_gate.specs.Untouched.{IsUntouched};
ghost use Rattle.mb_pool.specs.Endpoints.{AreOpen, HasShare, endpoint_of};

use crate::own_deque::OwnDeque;
use crate::shared_port::SharedPort;
use crate::thief::Thief;
use mb_gate::{Claim, MailboxState};
use std::sync::Wait;

/// A handle's own deque, and its ports of the next handles' deques in order.
pub struct WorkerDeques<H: MailboxState> {
    /// The deque to which the handle pushes.
    pub own_deque: OwnDeque<H>,
    /// The ports of the deques of the handles after it, and then of those before it.
    pub thieves: Vec<Thief<H>>,
}

// `Drop` is written by hand: with a derived one, each function that drops a value would prove again how the fields are
// dropped.
impl<H: MailboxState> Drop for WorkerDeques<H> {
    fn drop(self) {
        let WorkerDeques {
            own_deque: _,
            thieves: _,
        } = self;
    }
}

impl<H: MailboxState> WorkerDeques<H> {
    /// The deque to which the handle pushes.
    pub fn into_own(self) -> OwnDeque<H>
        ensures { result ≡ self.own_deque }
    {
        let WorkerDeques {
            own_deque,
            thieves: _,
        } = self;
        own_deque
    }
}

/// Takes the first claim of the first of these that has one: the handle's own deque, the injector, the next handles' deques
/// in order.
#[inline]
pub fn take_somewhere<H: MailboxState, R: Wait>(
    rt: &R,
    member: &mut WorkerDeques<H>,
    shared_port: &mut SharedPort<H>,
) -> Option<Claim<H>>
    requires { AreOpen (endpoint_of (port_view shared_port.old) (Some member.old)) }
    ensures taken { MatchOption result
        ((endpoint_of (port_view shared_port.new) (Some member.new) ≡ endpoint_of (port_view shared_port.old) (Some member.old))
        × All (WasEmpty (IsUntouched H.is_of H.facts)) (ports_of (endpoint_of (port_view shared_port.old) (Some member.old))))
        (λ c. TakesOne (IsUntouched H.is_of H.facts) (ports_of (endpoint_of (port_view shared_port.old) (Some member.old))) c
        (ports_of (endpoint_of (port_view shared_port.new) (Some member.new)))) }
    ensures same { parts_of (endpoint_of (port_view shared_port.new) (Some member.new)) ≡ parts_of (endpoint_of (port_view shared_port.old) (Some member.old)) }
{
    if let Some(claim) = member.own_deque.take() {
        return Some(claim);
    }
    if let Some(claim) = shared_port.take(rt) {
        return Some(claim);
    }
    steal_from_next(rt, member.thieves.as_mut_slice())
}

/// Steals the first claim of the first deque that has one.
fn steal_from_next<H: MailboxState, R: Wait>(rt: &R, thieves: &mut [Thief<H>]) -> Option<Claim<H>>
    requires { All HasShare thieves.old }
    ensures { MatchOption result
        ((thieves.new ≡ thieves.old) × All (WasEmpty (IsUntouched H.is_of H.facts)) thieves.old)
        (λ c. TakesOne (IsUntouched H.is_of H.facts) thieves.old c thieves.new) }
{
    for index in 0..thieves.len() {
        let thief = &mut thieves[index];
        if let Some(claim) = thief.take(rt) {
            return Some(claim);
        }
    }
    None
}
