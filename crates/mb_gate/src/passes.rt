//! How a pass is split for another thread, and how it is joined again.
ghost use Rattle.std.specs.Prelude.{◌≡◌};
ghost use Rattle.mb_gate.specs.View.{copied, halving, split_off, taking_over};
ghost use Rattle.mb_gate.specs.Accessors.{gates_id, pass_id, pass_view};

use crate::gates::Gates;
use crate::gates_rule::{SplitCopy, SplitNew, TakeOver};
use crate::mailbox_state::MailboxState;
use crate::pass::Pass;
use std::mem;

impl<H: MailboxState> Gates<H> {
    /// A second pass, which knows and owes what this one does. What this one counted as sent or took back stays its own (this
    /// project's own profile).
    pub fn split_pass(&self, pass: &mut Pass<H>) -> Pass<H>
        requires same_gates { pass_id pass.old ≡ gates_id self.now }
        ensures same_gates { (pass_id pass.new ≡ pass_id pass.old) × (pass_id result ≡ pass_id pass.old) }
        ensures known { (pass_view pass.new ≡ halving (pass_view pass.old)) × (pass_view result ≡ copied (pass_view pass.old)) }
    {
        let seat = self.table.shared.split_seat::<SplitCopy>(&mut pass.seat);
        Pass { seat }
    }

    /// A second pass, which knows nothing and owes nothing (this project's own profile).
    pub fn new_pass(&self, pass: &mut Pass<H>) -> Pass<H>
        requires same_gates { pass_id pass.old ≡ gates_id self.now }
        ensures same_gates { (pass_id pass.new ≡ pass_id pass.old) × (pass_id result ≡ pass_id pass.old) }
        ensures known { (pass_view pass.new ≡ halving (pass_view pass.old)) × (pass_view result ≡ split_off (pass_view pass.old)) }
    {
        let rest = self.table.shared.split_seat::<SplitNew>(&mut pass.seat);
        let seat = mem::replace(&mut pass.seat, rest);
        Pass { seat }
    }

    /// The pass takes over what another has seen and what it owes. What it sent itself stays its own (this project's own
    /// profile).
    pub fn absorb(&self, pass: &mut Pass<H>, other: Pass<H>)
        requires same_gates { (pass_id pass.old ≡ gates_id self.now) × (pass_id other ≡ gates_id self.now) }
        ensures same_gates { pass_id pass.new ≡ pass_id pass.old }
        ensures known { pass_view pass.new ≡ taking_over (pass_view pass.old) (pass_view other) }
    {
        let Pass { seat } = other;
        self.table
            .shared
            .join_seat::<TakeOver>(&mut pass.seat, seat);
    }
}
