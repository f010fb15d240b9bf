//! No code: laws of tests that the proofs of several crates cite (`proofs/`).
#![tactic(auto)]
