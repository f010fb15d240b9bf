//! The rules of papers 01 and 02, written a second time and in another way, to hold the engine's
//! printout against. Nothing is claimed of it but that it always ends and that nothing it does is
//! undefined.
#![tactic(auto)]

pub mod answer;
pub mod network;
mod owners;
pub mod printing;
pub mod reading;
pub mod rules;
pub mod script;
