//! The course of a script, over lists of any length: what each of its records does, its printout,
//! and the claim over all scripts. There is no code here: `specs/` says it, and `proofs/` shows
//! that every script is a list of calls.
#![tactic(auto)]
