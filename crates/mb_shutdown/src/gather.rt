//! Bringing all that belongs to a system together.
ghost use Rattle.std.specs.Prelude.{◌≡◌, ◌≤◌, [], IsPermutation, List, length, map, vec_capacity};
ghost use Rattle.mb_build.specs.Numbers.{numbers};
ghost use Rattle.mb_gate.specs.Accessors.{gates_id, pass_view, pass_id};
ghost use Rattle.mb_system.specs.Belonging.{BelongsTogether, senders_numbers};
ghost use Rattle.mb_system.specs.Members.{OutsideSender};
ghost use Rattle.mb_shutdown.specs.Belonging.{brings, brought};
ghost use Rattle.mb_shutdown.specs.Refused.{IsComplete, IsOfAll};

use crate::finished_sender::FinishedSender;
use crate::missing::sort_by_number;
use mb_actor::{Actor, Behaviours};
use mb_gate::{Gates, Pass};
use mb_home::BoxedHome;
use mb_system::{Built, System};

/// The gates, and the first handle's pass, which took over what all others knew; and of each sender, in the order of their
/// numbers, its passes and its log. Claims that are still in the pool are dropped: each of their actors would be scheduled.
pub(crate) fn gather<A: Actor, K: Behaviours>(
    built: Built<A, K>,
    outside: &mut Vec<FinishedSender>,
) -> (Gates<BoxedHome<A, K>>, Pass<BoxedHome<A, K>>)
    requires together { BelongsTogether built }
    requires complete { IsComplete built }
    requires room { (outside.old.items ≡ []) × (length built.senders.items ≤ vec_capacity outside.old) }
    ensures gates { (result.0 ≡ built.system.gates) × (pass_id result.1 ≡ gates_id result.0) }
    ensures of_all { IsOfAll built (pass_view result.1) }
    ensures outside { (senders : List OutsideSender) × IsPermutation senders built.senders.items
        × (senders_numbers senders ≡ numbers 0 built.system.senders) × (map brought outside.new.items ≡ map brings senders) }
{
    let Built {
        system,
        handles,
        mut senders,
    } = built;
    let System {
        gates,
        pool: _,
        going: _,
        workers: _,
        senders: _,
        throughput: _,
        alloc: _,
    } = system;
    sort_by_number(&mut senders);
    let mut handles = handles.into_iter();
    let Some(first) = handles.next() else {
        unreachable!()
    };
    let mut pass = first.into_pass();
    for handle in handles {
        gates.absorb(&mut pass, handle.into_pass());
    }
    for sender in senders {
        let (other, sends, send_log) = sender.into_parts();
        gates.absorb(&mut pass, other);
        outside.push_reserved(FinishedSender { sends, send_log });
    }
    (gates, pass)
}
