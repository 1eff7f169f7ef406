//! Why the server stops. One that serves others would log it and go on.
use std::alloc::AllocError;
use thiserror::Error;
use zone_server::{
    AttachRefusal, ChangeRefusal, LoadRefusal, OpenRefusal, TransferRefusal, UpdateRefusal,
};

#[derive(Debug, Drop, Error)]
pub enum Failure {
    #[error("a text is no name")]
    Text,
    #[error("there are fewer passes than threads")]
    Passes,
    #[error("{0}")]
    Load(#[from] LoadRefusal),
    #[error("{0}")]
    Open(#[from] OpenRefusal),
    #[error("{0}")]
    Update(#[from] UpdateRefusal),
    #[error("{0}")]
    Change(#[from] ChangeRefusal),
    #[error("{0}")]
    Attach(#[from] AttachRefusal),
    #[error("{0}")]
    Transfer(#[from] TransferRefusal),
    #[error("{0}")]
    Memory(#[from(alloc)] AllocError),
}
