//! Making the workers' handles and the senders of a new system.
ghost use Rattle.std.specs.Prelude.{◌≡◌, ◌<◌, ◌≤◌, ◌++◌, All, IfOk, Some, length};
ghost use Rattle.mb_ghost.specs.Shares.{IsWhole};
ghost use Rattle.mb_gate.specs.Accessors.{actors_of, gates_id, pass_view, pass_id};
ghost use Rattle.mb_gate.specs.Untouched.{origin_of};
ghost use Rattle.mb_pool.specs.Places.{gates_of};
ghost use Rattle.mb_startup.specs.Begun.{AreFirstHandles, AreNewHandles};
ghost use Rattle.mb_startup.specs.Opened.{AreForSenders, AreOpenedHandles, AreOpenedSenders, HasStarted, IsOnlyPass};
ghost use Rattle.mb_system.specs.Members.{pool_handles_of};
ghost use Rattle.mb_startup.specs.Shared.{KeepsWhole};
ghost use Rattle.mb_system.specs.Shares.{shares_of_handles, shares_of_senders};

use mb_actor::{Actor, Behaviours};
use mb_dead_letters::DeadLetters;
use mb_gate::{Gates, MailboxState, Pass};
use mb_ghost::Log;
use mb_home::BoxedHome;
use mb_msg::limits::ACTORS;
use mb_msg::{ActorId, JournalMode, SenderId, SysMsg};
use mb_pool::{Feed, FeedPort, WorkerPort};
use mb_queue::SendPass;
use mb_register::{ActorSet, Registrar, Told};
use mb_send::GatesSender;
use mb_syslist::Node;
use mb_system::{Sender, WorkerHandle};
use std::alloc::{AllocError, Global};
use std::sync::Wait;

/// The workers' handles and the senders of a new system, each in the order of their numbers.
pub(crate) struct HandlesAndSenders<A: Actor, K: Behaviours> {
    /// The workers' handles.
    pub(crate) handles: Vec<WorkerHandle<A, K>>,
    /// The senders outside.
    pub(crate) senders: Vec<Sender<A, K>>,
}

/// Makes the workers' handles and the senders of a new system. Its first handle has put a Create into the guardian's list. Of its dead letters each sender keeps
/// what a journal of this mode keeps of its entries.
///
/// The pass is the only one of these gates, and puts the Create there before the others are split off it: so nobody can have
/// ended that list. The other passes know nothing of it.
pub(crate) fn open<A: Actor, K: Behaviours, R: Wait>(
    rt: &R,
    alloc: Global,
    gates: &Gates<BoxedHome<A, K>>,
    mut pass: Pass<BoxedHome<A, K>>,
    handles: Vec<mb_pool::PoolHandle<BoxedHome<A, K>>>,
    feeds: Vec<Feed<BoxedHome<A, K>>>,
    outside: Vec<Vec<SendPass>>,
    journal: JournalMode,
) -> Result<HandlesAndSenders<A, K>, AllocError>
    requires pass { IsOnlyPass gates.now pass }
    requires actors { (0 < actors_of gates.now) × (actors_of gates.now ≤ 64) }
    requires not_empty { (0 < length handles.items) × (length handles.items ≤ 16) }
    requires handles { All (λ e. gates_of e ≡ Some (origin_of gates.now)) handles.items }
    requires for_senders { AreForSenders gates.now feeds.items outside.items }
    ensures handles { IfOk result (λ opened. AreOpenedHandles gates.now handles.items opened.handles.items) }
    ensures senders { IfOk result (λ opened. AreOpenedSenders gates.now journal feeds.items outside.items opened.senders.items) }
    ensures whole { IfOk result (λ opened. IsWhole (shares_of_handles opened.handles.items ++ shares_of_senders opened.senders.items)) }
{
    start(rt, alloc, gates, &mut pass)?;
    let senders = open_senders(alloc, gates, &mut pass, feeds, outside, journal)?;
    let mut handles = open_handles(alloc, gates, &mut pass, handles)?;
    give_first(gates, &mut handles, pass);
    Ok(HandlesAndSenders { handles, senders })
}

// The senders outside, each with a pass of its own. Of the dead letters of each as much is kept as a journal of this mode keeps.
fn open_senders<A: Actor, K: Behaviours>(
    alloc: Global,
    gates: &Gates<BoxedHome<A, K>>,
    pass: &mut Pass<BoxedHome<A, K>>,
    feeds: Vec<Feed<BoxedHome<A, K>>>,
    outside: Vec<Vec<SendPass>>,
    journal: JournalMode,
) -> Result<Vec<Sender<A, K>>, AllocError>
    requires same_gates { (pass_id pass.old ≡ gates_id gates.now) × (actors_of gates.now ≤ 64) }
    requires for_senders { AreForSenders gates.now feeds.items outside.items }
    ensures same_gates { pass_id pass.new ≡ pass_id pass.old }
    ensures kept { ((pass_view pass.new).log ≡ (pass_view pass.old).log) × ((pass_view pass.new).got ≡ (pass_view pass.old).got)
        × ((pass_view pass.new).obligations ≡ (pass_view pass.old).obligations) × ((pass_view pass.new).releases ≡ (pass_view pass.old).releases) }
    ensures shares { IfOk result (λ senders. KeepsWhole (pass_view pass.old).share (pass_view pass.new).share (shares_of_senders senders.items)) }
    ensures opened { IfOk result (λ senders. AreOpenedSenders gates.now journal feeds.items outside.items senders.items) }
{
    let mut senders = Vec::with_capacity(alloc, feeds.len())?;
    let mut outside = outside.into_iter();
    for feed in feeds {
        let dead = DeadLetters::of_mode(alloc, journal)?;
        let Some(sends) = outside.next() else {
            unreachable!();
        };
        let registrar = Registrar {
            pass: gates.new_pass(pass),
            run_queue: FeedPort::new(feed),
            owed: ActorSet::none(),
            told: Told::none(),
        };
        let by = SenderId(ACTORS + senders.len() as u32);
        let sender = GatesSender::new(alloc, by, registrar, sends, dead);
        senders.push(sender)?;
    }
    Ok(senders)
}

// The workers' handles, each with a pass of its own.
fn open_handles<A: Actor, K: Behaviours>(
    alloc: Global,
    gates: &Gates<BoxedHome<A, K>>,
    pass: &mut Pass<BoxedHome<A, K>>,
    handles: Vec<mb_pool::PoolHandle<BoxedHome<A, K>>>,
) -> Result<Vec<WorkerHandle<A, K>>, AllocError>
    requires same_gates { (pass_id pass.old ≡ gates_id gates.now) × (actors_of gates.now ≤ 64) }
    requires handles { All (λ e. gates_of e ≡ Some (origin_of gates.now)) handles.items }
    requires within_limit { length handles.items ≤ 16 }
    ensures same_gates { pass_id pass.new ≡ pass_id pass.old }
    ensures kept { ((pass_view pass.new).log ≡ (pass_view pass.old).log) × ((pass_view pass.new).got ≡ (pass_view pass.old).got)
        × ((pass_view pass.new).obligations ≡ (pass_view pass.old).obligations) × ((pass_view pass.new).releases ≡ (pass_view pass.old).releases) }
    ensures shares { IfOk result (λ opened. KeepsWhole (pass_view pass.old).share (pass_view pass.new).share (shares_of_handles opened.items)) }
    ensures opened { IfOk result (λ opened. (length opened.items ≡ length handles.items) × AreNewHandles gates.now 0 opened.items) }
    ensures ports { IfOk result (λ opened. pool_handles_of opened.items ≡ handles.items) }
{
    let mut opened = Vec::with_capacity(alloc, handles.len())?;
    for handle in handles {
        let registrar = Registrar {
            pass: gates.new_pass(pass),
            run_queue: WorkerPort::new(handle),
            owed: ActorSet::none(),
            told: Told::none(),
        };
        let number = opened.len() as u32;
        opened.push(WorkerHandle {
            number,
            registrar,
            taken: Log::new(),
        })?;
    }
    Ok(opened)
}

// Puts a Create into the guardian's list by the only pass. It got no claim, so the list is not ended.
fn start<H: MailboxState, R: Wait>(
    rt: &R,
    alloc: Global,
    gates: &Gates<H>,
    pass: &mut Pass<H>,
) -> Result<(), AllocError>
    requires pass { IsOnlyPass gates.now pass.old }
    requires not_empty { 0 < actors_of gates.now }
    ensures same_gates { pass_id pass.new ≡ pass_id pass.old }
    ensures started { IfOk result (λ _. HasStarted (pass_view pass.new)) }
    ensures whole { IfOk result (λ _. IsWhole (pass_view pass.new).share) }
{
    let node = Node::new(alloc, SysMsg::Create)?;
    match gates.sys_enqueue(rt, pass, ActorId(0), node) {
        Ok(_) => Ok(()),
        Err(_) => unreachable!(),
    }
}

// The first handle takes over the pass that put the Create into the list, and with it what is owed to the guardian.
fn give_first<A: Actor, K: Behaviours>(
    gates: &Gates<BoxedHome<A, K>>,
    handles: &mut [WorkerHandle<A, K>],
    pass: Pass<BoxedHome<A, K>>,
)
    requires same_gates { pass_id pass ≡ gates_id gates.now }
    requires started { HasStarted (pass_view pass) }
    requires not_empty { 0 < length handles.old }
    requires handles { AreNewHandles gates.now 0 handles.old }
    ensures same_count { length handles.new ≡ length handles.old }
    ensures first { AreFirstHandles gates.now handles.new }
    ensures shares { shares_of_handles handles.new ≡ (pass_view pass).share ++ shares_of_handles handles.old }
    ensures ports { pool_handles_of handles.new ≡ pool_handles_of handles.old }
{
    gates.absorb(&mut handles[0].registrar.pass, pass);
}
