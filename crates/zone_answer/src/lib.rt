//! Questions to one version of a zone: the answers that an authoritative server gives (RFC 1034, section 4.3.2; wildcards by
//! RFC 4592), and the names around a name, in canonical order (RFC 4034, section 6.1): those at and above it, the last one
//! before it, and those that follow it in either direction.
#![tactic(auto)]

mod addresses;
pub mod answer_laws;
mod answers;
mod cut;
mod found;
mod header;
mod kind;
pub mod name_laws;
mod named;
mod negative;
mod node;
mod question;
mod records;
pub mod response_laws;
mod responses;
mod rows;
mod scratch;
mod sections;
mod sink;
mod step;
mod walker;
mod walks;

pub use answers::Answer;
pub use found::{Found, find};
pub use header::{Code, Header};
pub use kind::Kind;
pub use question::{answer, answer_into, answer_under};
pub use records::{entry_of, read_owned};
pub use responses::{Response, respond, respond_into, respond_under};
pub use rows::{Row, Rows};
pub use scratch::Scratch;
pub use sections::Sections;
pub use sink::RowSink;
pub use walker::Walker;
pub use walks::{back, walk};
