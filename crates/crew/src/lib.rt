//! Workers that share an index: how each comes by its commands, past the gate.
#![tactic(auto)]

mod turnstile;

pub use turnstile::Turnstile;
