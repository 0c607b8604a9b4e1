//! A step of a system task.

ghost use Rattle.std.specs.Prelude.{◌≡◌, true, false, not, IfOk, OnOk, OnErr, IsOk};
ghost use Rattle.qsg_peers.specs.Peers.{peer_of, with_peer, in_hand};
ghost use Rattle.qsg_step.specs.Steps.{peer_work_or, tallied};

use crate::working::Working;
use qsg_disk::Disk;
use qsg_num::Member;
use qsg_peer::FailedLife;
use qsg_peers::Peers;
use qsg_step::Step;
use qsg_tallies::Tallies;
use std::alloc::{AllocError, Global};

/// A system task without a work takes a new one in hand.
fn begin(alloc: Global, peers: &mut Peers, member: Member) -> Result<(), AllocError>
    ensures begun { OnOk result (peers.new ≡ with_peer member (in_hand (peer_work_or member (peer_of member peers.old).work) (peer_of member peers.old)) peers.old) }
    ensures unchanged { OnErr result (peers.new ≡ peers.old) }
    ensures idle { OnErr result ((peer_of member peers.old).work ≡ None) }
{
    if peers.is_busy(member) {
        return Ok(());
    }
    peers.begin(alloc, member)
}

/// The mark that the system task of a member took off is counted.
fn count(tallies: &mut Tallies, off: Option<FailedLife>, member: Member)
    ensures { tallies.new ≡ tallied off member tallies.old }
{
    if let Some(of) = off {
        tallies.count(of.member, of.incarnation, member);
    }
}

impl<D: Disk> Working<D> {
    ghost use Rattle.qsg_parts.specs.Owned.{owned};
    ghost use Rattle.qsg_peer.specs.Needs.{MayStepAt};
    ghost use Rattle.qsg_step.specs.Steps.{peer_work_before, IsPeerStep, SystemSteps, IsUnmade};
    ghost use Rattle.qsg_step.specs.Waiting.{has_work};
    ghost use Rattle.qsg_step.specs.declared.step.Step.TheVariants.{Moved};
    ghost use Rattle.qsg_working.specs.Needs.{system_needs_none, peer_needs_none};
    ghost use Rattle.qsg_working.specs.Views.{state_of};

    /// Makes the next step of the system task of a member.
    pub fn system(&mut self, alloc: Global, member: Member) -> Result<Step, AllocError>
        requires may { has_work member (state_of self.old) ≡ true → MayStepAt (peer_work_before member (state_of self.old)).phase (owned self.old.parts) }
        ensures next { IfOk result (λ step. SystemSteps (has_work member (state_of self.old)) member (state_of self.old) step (state_of self.new)) }
        ensures unmade { OnErr result (IsUnmade (state_of self.old) (state_of self.new)) }
        ensures settles { system_needs_none member (state_of self.old) ≡ true → IsOk result }
    {
        if !self.has_work(member) {
            return Ok(Step::Done);
        }
        self.work_on(alloc, member)
    }

    /// The same where it has work.
    fn work_on(&mut self, alloc: Global, member: Member) -> Result<Step, AllocError>
        requires may { MayStepAt (peer_work_before member (state_of self.old)).phase (owned self.old.parts) }
        ensures next { IfOk result (λ step. (step ≡ Moved) × IsPeerStep member (state_of self.old) (state_of self.new)) }
        ensures unmade { OnErr result (IsUnmade (state_of self.old) (state_of self.new)) }
        ensures settles { peer_needs_none (peer_of member self.old.peers).work ≡ true → IsOk result }
    {
        self.peers.kept();
        let at = self.parts.history.len() as u64;
        begin(alloc, &mut self.peers, member)?;
        match self.peers.step(alloc, &mut self.parts, member, at) {
            Ok(off) => {
                count(&mut self.tallies, off, member);
                Ok(Step::Moved)
            }
            Err(_) => Err(AllocError),
        }
    }
}
