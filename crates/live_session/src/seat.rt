//! A worker with the two passes of an index.

use dns_name::Name;
use job_commands::{WorkerScratch, ZoneLaw};
use job_report::Outcome;
use job_script::Command;
use job_threads::{Passes, measure_last, run_next, tell_all};
use qp_multi::{Index, Named};
use session_talk::{LastVersion, Worker};
use std::alloc::{AllocError, Global};
use std::sync::Wait;

/// A worker alone at an index, with the room that its commands need.
#[derive(Drop)]
pub struct Seat<'i, R: Wait, N: Named> {
    pub rt: &'i R,
    pub alloc: Global,
    pub origin: &'i Name,
    pub index: &'i Index<ZoneLaw, N>,
    pub passes: Passes<'i, N>,
    pub room: WorkerScratch,
}

impl<R: Wait, N: Named> Worker for Seat<'_, R, N> {
    ghost use Rattle.std.specs.Prelude.{◌≡◌};
    ghost use Rattle.job_commands.specs.Prelude.{OpensAt, known_at, table_size};
    ghost use Rattle.job_threads.specs.Passes.{AreAt, holds_one, worker_passes_of};
    ghost use Rattle.live_session.specs.Seats.{HasRun};

    ghost origin = { λ s. s.origin.now };

    ghost is_ready = { λ s. AreAt s.index.now.place s.passes × OpensAt s.origin.now (known_at s.passes.asks.seat) };

    ghost holds = { λ s. holds_one s.passes };

    ghost has_run = { λ s o commands os. HasRun s.origin.now (table_size s.index.now) (worker_passes_of s.passes) o commands os };

    fn run(&mut self, command: &Command) -> Result<Outcome, AllocError> {
        let Seat {
            rt,
            alloc,
            origin,
            index,
            passes,
            room,
        } = self;
        run_next(*rt, *alloc, origin, index, passes, command, room)
    }

    fn tell(&mut self) {
        tell_all(self.index, &mut self.passes)
    }

    fn end(&mut self) -> LastVersion {
        let last = measure_last(self.index, &mut self.passes);
        LastVersion {
            version: last.version,
            names: last.names,
        }
    }
}
