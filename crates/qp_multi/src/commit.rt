//! Commits: the working set becomes the next version.
ghost use Rattle.std.specs.Prelude.{◌≡◌, ◌↔◌, ◌+◌, ◌^◌, ◌<◌, ◌≤◌, All, IfOk, IfErr, IsErr, length};
ghost use Rattle.qp_multi.specs.Prelude.{kept_in, CanPublish, Published, applied, AreWithin, IsVersion, IsSameSeat};

use crate::freeing::free_unreached;
use crate::keeping::make_round;
use crate::log::Log;
use crate::meaning::{Law, Meaning, Operations, Version};
use crate::writer::{WorkingVersion, WriterAtRest};
use chunk_usage::Usage;
use evacuate::EvacuationEnd;
use packed_node::Ref;
use pin_core::{LAST_VERSION, Spent, next_version};
use shared_cells::{JoinedSeat, PassSeat, Payload, Shared};
use std::marker::Brand;

/// What a commit made.
#[derive(Clone, Copy, PartialEq, Eq, Debug)]
pub struct Receipt {
    /// The new version.
    pub version: u64,
    /// How many chunks were freed after the round that follows publishing.
    pub freed: u32,
    /// How many versions that round kept.
    pub kept: usize,
    /// Not where cells were to be moved out of sparse chunks, and no chunk was free for them.
    pub whole: bool,
}

impl Receipt {
    // The round left this usage.
    fn of(version: u64, freed: u32, usage: &Usage, whole: bool) -> Receipt
        ensures { (result.version ≡ version) × (result.freed ≡ freed) × (result.kept ≡ length usage.now.rows) × (result.whole ≡ whole) }
    {
        Receipt {
            version,
            freed,
            kept: usage.kept().len(),
            whole,
        }
    }
}

/// Publishes the trie of a root. What that makes of the current version, and its cells, are named.
fn publish<L: Law, M: Payload<Operations>>(
    shared: &Shared<Version, Operations, Meaning<L>>,
    seat: &mut JoinedSeat<Version, Operations>,
    root: Option<Ref>,
    _log: &Log,
) -> u64
    requires table { seat.old.place.table_id ≡ shared.now.table.shared.table_id }
    requires can { CanPublish applied L.lawful (AreWithin L.most_operations) IsVersion shared.now.table.shared.key seat.old.place.me.0 M.change root M.image }
    ensures seat { IsSameSeat seat.old seat.new }
    ensures version { result ≡ seat.old.version + 1 }
    ensures published { Published seat.old.place.me.0 M.change root M.image seat.new.place.me.0 }
{
    seat.publish::<Meaning<L>, M>(shared, root)
}

impl WorkingVersion {
    ghost use Rattle.qp_multi.specs.Commits.{CanBePublished, CanCommit, CanSettle, IsCommitted, IsReceipt, IsSpent, IsUntouched};
    ghost use Rattle.qp_multi.specs.Commits.{KeepsTurn, LeavesFew, LeavesRoom, SettlesRoomy};
    ghost use Rattle.qp_multi.specs.WorkingVersions.{Commits};
    ghost use Rattle.qp_multi.specs.Receipts.{Settles};

    // The number of the next version, if there is one.
    fn next_version<L: Law>(
        &mut self,
        shared: &Shared<Version, Operations, Meaning<L>>,
    ) -> Result<u64, Spent>
        requires { self.old.seat.place.table_id ≡ shared.now.table.shared.table_id }
        ensures same { IsUntouched self.old self.new }
        ensures newest { All (λ k. k.version ≤ self.old.seat.version) (kept_in self.old.seat.place.me.0.turn) }
        ensures next { IfOk result (λ n. (n ≡ self.old.seat.version + 1) × (self.old.seat.version + 1 < 2 ^ 40)) }
        ensures spent { IfErr result (λ s. (s.version ≡ self.old.seat.version) × (self.old.seat.version ≡ LAST_VERSION)) }
    {
        self.seat.look(shared);
        next_version(self.seat.version)
    }

    // Moves what the working set has in sparse chunks, where these are more than so many. Tells whether no more of them are left.
    fn settle<L: Law>(
        self,
        shared: &Shared<Version, Operations, Meaning<L>>,
        most: u32,
    ) -> (WorkingVersion, bool)
        requires { CanSettle shared.now.table.shared.table_id most self }
        ensures settles { Settles most self result.0 result.1 }
        ensures turn { KeepsTurn self result.0 }
        ensures sparse { LeavesFew most result.0 result.1 }
        ensures room { SettlesRoomy self result.0 result.1 }
    {
        self.usage.known(); // for the proof
        if self.usage.sparse() <= most {
            return (self, true);
        }
        let (working, done) = self.evacuate::<L, Brand>(shared);
        match done {
            EvacuationEnd::Whole => (working, true),
            EvacuationEnd::Stopped => (working, false),
        }
    }

    // Publishes the working set, drops the versions that no pass reads, frees what nothing needs, and gives the pass back.
    fn publish<L: Law>(
        self,
        shared: &Shared<Version, Operations, Meaning<L>>,
        whole: bool,
    ) -> (WriterAtRest, PassSeat<Version, Operations>, Receipt)
        requires can { CanBePublished L.lawful L.most_operations shared.now.table.shared.table_id self }
        requires room { LeavesRoom self }
        ensures tables { (result.0.seat.place.table_id ≡ self.seat.place.table_id) × (result.1.place.table_id ≡ self.seat.place.table_id) }
        ensures commits { Commits self.seat.place.me.0 self.log.operations result.1.place.me.0 }
        ensures receipt { IsReceipt self whole result.1.place.me.0 result.2 }
    {
        let WorkingVersion {
            mut seat,
            mut usage,
            base: _,
            root,
            log,
        } = self;
        usage.known(); // for the proof
        let version = publish::<L, Brand>(shared, &mut seat, root, &log);
        usage.freeze(version);
        make_round(shared, &mut seat, &mut usage);
        let (seat, freed) = free_unreached::<L, Brand>(shared, seat, &mut usage);
        let (seat, pass) = seat.split(shared);
        let receipt = Receipt::of(version, freed, &usage, whole);
        let writer = WriterAtRest { seat, usage, root };
        (writer, pass, receipt)
    }

    /// Makes the working set the next version. Where there is none, the base stays. What lies in sparse chunks is moved first, where
    /// these are more than so many.
    pub(crate) fn commit<L: Law>(
        self,
        shared: &Shared<Version, Operations, Meaning<L>>,
        most: u32,
    ) -> (
        WriterAtRest,
        PassSeat<Version, Operations>,
        Result<Receipt, Spent>,
    )
        requires { CanCommit L.lawful L.most_operations shared.now.table.shared.table_id most self }
        ensures tables { (result.0.seat.place.table_id ≡ self.seat.place.table_id) × (result.1.place.table_id ≡ self.seat.place.table_id) }
        ensures done { IfOk result.2 (IsCommitted most self result.1.place.me.0) }
        ensures undone { IfErr result.2 (IsSpent self result.1.place.me.0) }
        ensures spent { IsErr result.2 ↔ (self.seat.version ≡ LAST_VERSION) }
    {
        let mut working = self;
        match working.next_version(shared) {
            Ok(_) => {
                let (working, whole) = working.settle(shared, most);
                let (writer, pass, receipt) = working.publish(shared, whole);
                (writer, pass, Ok(receipt))
            }
            Err(spent) => {
                let (writer, pass) = working.undo(shared);
                (writer, pass, Err(spent))
            }
        }
    }
}
