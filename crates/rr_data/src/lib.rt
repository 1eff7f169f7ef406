//! The records of one name: their data, the RRsets that they form, and the entry that keeps these (RFC 2181,
//! section 5).
#![tactic(auto)]

mod data_text;
mod decoding;
mod encoding;
mod entry;
mod fields;
mod forms;
mod generic;
pub mod laws;
mod numbers;
mod places;
mod rdata;
mod reading;
mod record_text;
mod refusal;
mod rrset;
mod single;
mod splits;
mod strings;
mod type_words;
mod types;
mod views;

pub use data_text::push_type;
pub use entry::{Entry, ITEM_LIMIT, item_buffer};
pub use rdata::Rdata;
pub use record_text::{Directives, push_record};
pub use refusal::{DecodeRefusal, RdataRefusal};
pub use rrset::RrSet;
pub use single::single_item;
pub use type_words::read_type;
pub use types::{CNAME, NS, SOA};
pub use views::{ItemView, RecordViews, SetView};
