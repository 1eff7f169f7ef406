//! What a worker needs beside its passes.

use job_report::PrintedRows;
use std::alloc::{AllocError, Global};
use zone_answer::{Scratch, Sections};
use zone_edit::ItemBuffers;

/// Room for the items of transactions, for what questions go through a version with, for the records of an answer or a response, and
/// for a reply that is printed. One value serves all commands of a worker.
#[derive(Drop)]
pub struct WorkerScratch {
    pub items: ItemBuffers,
    pub scratch: Scratch,
    pub rows: Sections<PrintedRows>,
    pub text: Vec<u8>,
}

impl WorkerScratch {
    /// With nothing in it. `AllocError` is want of memory.
    pub fn new(alloc: Global) -> Result<WorkerScratch, AllocError> {
        let items = ItemBuffers::new(alloc)?;
        let scratch = Scratch::new(alloc)?;
        Ok(WorkerScratch {
            items,
            scratch,
            rows: Sections::new(PrintedRows::new(alloc)),
            text: Vec::new(alloc),
        })
    }
}
