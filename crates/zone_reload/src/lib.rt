//! A version's zone exchanged for another one, by one transaction that changes what differs and nothing else.
#![tactic(auto)]

mod operations;
mod reload;
mod versions;

pub use operations::OperationList;
pub use reload::{operations_between, operations_to, replace_all};
pub use versions::VersionNames;
