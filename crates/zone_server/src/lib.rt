//! A server of zones: each zone an index of its own with many versions, the table of their origins, and passes for the threads that ask and change. What
//! the author of a server would write over these is here once.
#![tactic(auto)]

mod asking;
mod attaching;
mod changing;
mod finding;
mod home;
mod loading;
mod noting;
mod opening;
mod reloading;
mod reply;
mod responding;
mod server;
mod transferring;
mod update;
mod wire;

pub use asking::Answered;
pub use attaching::AttachRefusal;
pub use changing::ChangeRefusal;
pub use home::Home;
pub use loading::{LoadRefusal, LoadedZone};
pub use noting::ServerNote;
pub use opening::{OpenRefusal, Opening};
pub use reloading::ReloadRefusal;
pub use reply::{FromZone, Reply};
pub use server::{Server, ServerPass};
pub use transferring::{TransferRefusal, Transferred};
pub use update::{Update, UpdateRefusal};
pub use wire::WireRows;
