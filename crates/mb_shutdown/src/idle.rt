//! Whether any actor has something to run.
ghost use Rattle.std.specs.Prelude.{◌≡◌, ◌<◌, ◌≤◌, MatchBool, MatchOption};
ghost use Rattle.mb_gate.specs.Accessors.{actors_of, gates_id, pass_view, pass_id};
ghost use Rattle.mb_gate.specs.View.{View};
ghost use Rattle.mb_shutdown.specs.Idle.{WereReadIdle, WasReadIdle, WasReadBusy};

use mb_gate::{Gates, MailboxState, Pass};
use mb_msg::ActorId;

/// The least actor that is scheduled or has something to run.
pub fn first_busy<H: MailboxState>(gates: &Gates<H>, pass: &mut Pass<H>) -> Option<ActorId>
    requires same_gates { pass_id pass.old ≡ gates_id gates.now }
    requires within_limit { actors_of gates.now ≤ 64 }
    ensures same_gates { pass_id pass.new ≡ pass_id pass.old }
    ensures settled { MatchOption result (WereReadIdle 0 (actors_of gates.now) (pass_view pass.old) (pass_view pass.new))
        (λ id. (id.0 < actors_of gates.now) × ((between : View) × WereReadIdle 0 id.0 (pass_view pass.old) between
        × WasReadBusy id.0 between (pass_view pass.new))) }
{
    for number in 0..gates.actors() {
        let id = ActorId(number as u16);
        if !is_idle(gates, pass, id) {
            return Some(id);
        }
    }
    None
}

// Whether the actor has nothing to run: it is closed; or it is not scheduled, has no system work, and has no envelope that it
// may handle.
fn is_idle<H: MailboxState>(gates: &Gates<H>, pass: &mut Pass<H>, id: ActorId) -> bool
    requires same_gates { pass_id pass.old ≡ gates_id gates.now }
    requires present { id.0 < actors_of gates.now }
    ensures same_gates { pass_id pass.new ≡ pass_id pass.old }
    ensures settled { MatchBool result (WasReadIdle id.0 (pass_view pass.old) (pass_view pass.new))
        (WasReadBusy id.0 (pass_view pass.old) (pass_view pass.new)) }
{
    let status = gates.status(pass, id);
    if status.closed() {
        return true;
    }
    if status.scheduled() || gates.has_system(pass, id) {
        return false;
    }
    status.suspended() || gates.waiting(pass, id) == 0
}
