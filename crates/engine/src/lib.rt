//! What a network is asked to do and to say: calls and drains by value and in place, questions, and
//! the whole printout of a script. Every public function takes any network (R11.1): it tests it
//! first, and refuses 6 with the very network where it is not well formed. What is done past the
//! test is private to this crate, and asks that the network be well formed. Each contract is an
//! equation with the rules of the crate `protocol` on the lists that the network's arrays hold.
#![tactic(auto)]

use network::Network;
use report::Report;

mod calls;
mod drains;
mod in_place;
mod printing;
mod questions;

pub use calls::{act, apply};
pub use drains::{drain, drain_in_place};
pub use printing::{SIZE_LIMIT, TEXT_SIZE, printout};
pub use questions::{inserted, owner, peek};

/// What a call or a drain by value hands back: the network as it leaves it, and what is told.
#[derive(Clone, Copy)]
pub struct Called {
    pub network: Network,
    pub report: Report,
}
