//! The law of one sender and one receiver, for the crates above.
ghost use Rattle.std.specs.Prelude.{◌≡◌, ℕ, List};
ghost use Rattle.mb_msg.specs.declared.envelope.Envelope.{Envelope};
ghost use Rattle.mb_queue.specs.Passes.{SendPassView, Discipline, first_in_first_out, control_first};
ghost use Rattle.mb_journal.specs.Accepted.{NumbersCountUpFrom, accepted, queued, to_actor};
ghost use Rattle.mb_journal.specs.Pair.{FatesInSendOrder, AcceptedMatchFates, EachHasOneFate};
ghost use Rattle.mb_journal.specs.declared.sent_envelope.SentEnvelope.{SentEnvelope};
ghost use Rattle.mb_shutdown.specs.AllArrived.{AllArrived};
ghost use Rattle.mb_shutdown.specs.Parts.{ArePartsInOrder};

/// A law about a sender's pass that pushed what the sender was answered "queued" for, all of which arrived. Each envelope to
/// the receiver that the sender was answered for stands among the receiver's envelopes or the sender's dead letters, as often
/// as it was accepted, and nothing else of the sender does. If the sender numbered its envelopes from 0, each stands there
/// exactly once. They stand in the sender's order where the mailbox is first in, first out. Where it is control-aware, control
/// messages stand in the sender's order, and so do all others.
pub fn what_arrived_is_accounted_for()
    ensures as_often_as_accepted { (to : ℕ) (postings : List SentEnvelope) (discipline : Discipline) (fates : List Envelope) (pass : SendPassView)
        → pass.pushed ≡ to_actor to (queued postings) → AllArrived discipline fates pass → AcceptedMatchFates pass.by to postings fates }
    ensures once { (to : ℕ) (postings : List SentEnvelope) (discipline : Discipline) (fates : List Envelope) (pass : SendPassView)
        → pass.pushed ≡ to_actor to (queued postings) → AllArrived discipline fates pass → NumbersCountUpFrom pass.by 0 (accepted postings)
        → EachHasOneFate to postings fates }
    ensures in_order { (to : ℕ) (postings : List SentEnvelope) (discipline : Discipline) (fates : List Envelope) (pass : SendPassView)
        → pass.pushed ≡ to_actor to (queued postings) → AllArrived discipline fates pass → NumbersCountUpFrom pass.by 0 (accepted postings)
        → discipline ≡ first_in_first_out → FatesInSendOrder pass.by to postings fates }
    ensures parts_in_order { (to : ℕ) (postings : List SentEnvelope) (discipline : Discipline) (fates : List Envelope) (pass : SendPassView)
        → pass.pushed ≡ to_actor to (queued postings) → AllArrived discipline fates pass → NumbersCountUpFrom pass.by 0 (accepted postings)
        → discipline ≡ control_first → ArePartsInOrder pass.by to postings fates }
{}
