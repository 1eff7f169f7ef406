//! The turn with its usage: between two transactions, and during one.
ghost use Rattle.std.specs.Prelude.{◌≡◌, ◌+◌, ◌*◌, List, length};
ghost use Rattle.std.proofs.Props.{props};
ghost use Rattle.pin_core.specs.Words.{words_for};
ghost use Rattle.shared_cells.specs.Views.{kept_in, pass_of};
ghost use Rattle.qp_multi.specs.Turns.{Agrees, AtRest, cells_with, current_root};
ghost use Rattle.qp_multi.specs.Bases.{StandsFor};
ghost use Rattle.qp_multi.specs.Capacity.{RestsRoomy};
ghost use Rattle.trie_model.specs.Keys.{Entry};
ghost use Rattle.chunk_usage.specs.Keeping.{closed, freed, restored};

use crate::freeing::free_unreached;
use crate::kind::Kind;
use crate::log::Log;
use crate::meaning::{Law, Meaning, Operations, Version};
use chunk_usage::Usage;
use packed_node::Ref;
use shared_cells::{JoinedSeat, PassSeat, Shared, TurnSeat};
use std::marker::Brand;

/// The turn between two transactions.
#[derive(Drop)]
pub struct WriterAtRest {
    pub(crate) seat: TurnSeat<Version, Operations>,
    pub(crate) usage: Usage,
    /// The current version's.
    pub(crate) root: Option<Ref>,
    ghost wide: { words_for (length usage.given) ≡ seat.place.table_id.words },
    ghost agrees: { Agrees (cells_with usage seat.place.me.0.turn) usage seat.passes } by { Prim.hlevel props },
    ghost at_rest: { AtRest usage } by { Prim.hlevel props },
    ghost root_is: { root ≡ current_root (kept_in seat.place.me.0.turn) } by { Prim.hlevel props },
    ghost rests: { RestsRoomy usage seat.place.me.0.seen } by { Prim.hlevel props },
}

/// The turn during a transaction of the joined pass.
#[derive(Drop)]
pub struct WorkingVersion {
    pub(crate) seat: JoinedSeat<Version, Operations>,
    pub(crate) usage: Usage,
    /// The current version's, which is the base.
    pub(crate) base: Option<Ref>,
    /// The working set's.
    pub(crate) root: Option<Ref>,
    /// What was done to the base.
    pub(crate) log: Log,
    ghost wide: { words_for (length usage.given) ≡ seat.place.table_id.words },
    ghost agrees: { Agrees (cells_with usage seat.place.me.0.turn) usage seat.passes } by { Prim.hlevel props },
    ghost base_is: { base ≡ current_root (kept_in seat.place.me.0.turn) } by { Prim.hlevel props },
}

impl WriterAtRest {
    ghost use Rattle.qp_multi.specs.Begins.{IsAtBase, JoinsWriter};

    /// A pass joins the turn. The working set is at first the base.
    pub(crate) fn begin<L: Law>(
        self,
        shared: &Shared<Version, Operations, Meaning<L>>,
        pass: PassSeat<Version, Operations>,
    ) -> WorkingVersion
        requires { (self.seat.place.table_id ≡ shared.now.table.shared.table_id) × (pass.place.table_id ≡ shared.now.table.shared.table_id) }
        ensures joins { JoinsWriter L.lawful L.most_operations pass.place.me.0 self result }
        ensures base { IsAtBase self result }
    {
        let WriterAtRest { seat, usage, root } = self;
        usage.known(); // for the proof
        let mut seat = seat.join(shared, pass);
        seat.look(shared);
        WorkingVersion {
            seat,
            usage,
            base: root,
            root,
            log: Log::new(),
        }
    }
}

impl WorkingVersion {
    ghost use Rattle.qp_multi.specs.Bounds.{HasRoom};
    ghost use Rattle.qp_multi.specs.Kinds.{started};

    // The bump chunk counts as filled.
    fn start_chunk(&mut self)
        ensures seat { self.new.seat ≡ self.old.seat }
        ensures usage { self.new.usage ≡ closed self.old.usage }
        ensures root { self.new.root ≡ self.old.root }
        ensures log { self.new.log.operations ≡ self.old.log.operations }
        ensures stands { (es : List Entry) → StandsFor self.old.seat.place.me.0 self.old.usage self.old.root es
            → StandsFor self.new.seat.place.me.0 self.new.usage self.new.root es }
    {
        self.usage.fresh();
    }

    /// Begins as a kind of transaction does.
    pub(crate) fn start<K: Kind>(self) -> WorkingVersion
        ensures seat { result.seat ≡ self.seat }
        ensures usage { result.usage ≡ started K.OWN_CHUNK self.usage }
        ensures log { result.log.operations ≡ self.log.operations }
        ensures stands { (es : List Entry) → StandsFor self.seat.place.me.0 self.usage self.root es
            → StandsFor result.seat.place.me.0 result.usage result.root es }
    {
        let mut working = self;
        if K::OWN_CHUNK {
            working.start_chunk();
            return working;
        }
        working
    }

    /// Goes back to the base, frees what only the working set needed, and gives the pass back.
    pub(crate) fn undo<L: Law>(
        self,
        shared: &Shared<Version, Operations, Meaning<L>>,
    ) -> (WriterAtRest, PassSeat<Version, Operations>)
        requires table { self.seat.place.table_id ≡ shared.now.table.shared.table_id }
        requires room { HasRoom self }
        ensures tables { (result.0.seat.place.table_id ≡ self.seat.place.table_id) × (result.1.place.table_id ≡ self.seat.place.table_id) }
        ensures pass { result.1.place.me.0 ≡ pass_of self.seat.place.me.0 }
        ensures usage { result.0.usage ≡ freed (restored self.usage) }
    {
        let WorkingVersion {
            seat,
            mut usage,
            base,
            root: _,
            log: _,
        } = self;
        usage.restore();
        let (seat, _) = free_unreached::<L, Brand>(shared, seat, &mut usage);
        let (seat, pass) = seat.split(shared);
        let writer = WriterAtRest {
            seat,
            usage,
            root: base,
        };
        (writer, pass)
    }
}
