//! Making the ports of the queue that all handles and feeds share.
ghost use Rattle.std.specs.Prelude.{◌≡◌, ◌<◌, IfOk, map, replicate};
ghost use Rattle.mb_pool.specs.Begins.{borrowed, bound_of};
ghost use Rattle.mb_pool.specs.Ledger.{opened, unused};
ghost use Rattle.mb_pool.specs.Parts.{port_view};

use crate::shared_port::{FeedQueuePort, SharedPort, SlotsPort};
use mb_gate::MailboxState;
use mb_msg::PoolKind;
use std::alloc::{AllocError, Global};

/// The most claims that a shared pool holds.
const PLACES: usize = 64;

/// The first port of the queue that all share. Whose gates' claims go in is not fixed yet.
pub fn first_shared_port<H: MailboxState>(
    alloc: Global,
    kind: PoolKind,
) -> Result<SharedPort<H>, AllocError>
    ensures { IfOk result (λ shared_port. ((port_view shared_port).queue.capacity ≡ bound_of kind) × ((port_view shared_port).ledger ≡ unused)) }
{
    match kind {
        PoolKind::Shared => {
            let port = SlotsPort::new(alloc, PLACES)?;
            Ok(SharedPort::Bounded(port))
        }
        PoolKind::Stealing => {
            let port = FeedQueuePort::new(alloc)?;
            Ok(SharedPort::Unbounded(port))
        }
    }
}

/// A port for each share of the first one, which keeps one.
pub fn shared_ports_of<H: MailboxState>(
    alloc: Global,
    first: SharedPort<H>,
    count: usize,
) -> Result<Vec<SharedPort<H>>, AllocError>
    requires not_empty { 0 < count }
    requires shares { (port_view first).ledger ≡ opened (port_view first).ledger.gates (port_view first).ledger.members count }
    ensures { IfOk result (λ shared_ports. map port_view shared_ports.items ≡ replicate count (borrowed (port_view first))) }
{
    let mut first = first;
    let mut shared_ports = Vec::with_capacity(alloc, count)?;
    for _lent in 1..count {
        let shared_port = first.lend()?;
        shared_ports.push(shared_port)?;
    }
    shared_ports.push(first)?;
    Ok(shared_ports)
}
