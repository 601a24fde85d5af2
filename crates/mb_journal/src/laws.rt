//! The laws of delivery, each for one sender and one receiver.
ghost use Rattle.std.specs.Prelude.{ℕ, List};
ghost use Rattle.mb_msg.specs.declared.envelope.Envelope.{Envelope};
ghost use Rattle.mb_journal.specs.declared.sent_envelope.SentEnvelope.{SentEnvelope};
ghost use Rattle.mb_journal.specs.Accepted.{NumbersCountUpFrom, accepted};
ghost use Rattle.mb_journal.specs.Pair.{QueuedMatchFates, QueuedInFateOrder, FatesInSendOrder, AcceptedMatchFates, EachHasOneFate};

/// A law: where all that a sender was told is queued came to the receiver in order, the sender's envelopes among the
/// receiver's fates are its accepted envelopes without its dead letters, in order. The sender numbered them from 0.
pub fn fates_in_send_order()
    ensures { (by to : ℕ) (postings : List SentEnvelope) (fates : List Envelope)
        → NumbersCountUpFrom by 0 (accepted postings) → QueuedInFateOrder by to postings fates → FatesInSendOrder by to postings fates }
{}

/// A law: where all that a sender was told is queued came to the receiver, in any order, each accepted envelope is
/// among the receiver's fates or the sender's dead letters as often as it was accepted, and no other envelope of the
/// sender is.
pub fn accepted_match_fates()
    ensures { (by to : ℕ) (postings : List SentEnvelope) (fates : List Envelope)
        → QueuedMatchFates by to postings fates → AcceptedMatchFates by to postings fates }
{}

/// A law: where the sender numbered its envelopes from 0, that is exactly once.
pub fn each_has_one_fate()
    ensures { (by to : ℕ) (postings : List SentEnvelope) (fates : List Envelope)
        → NumbersCountUpFrom by 0 (accepted postings) → AcceptedMatchFates by to postings fates → EachHasOneFate to postings fates }
{}
