//! No code: the theory of rings of right links, over any number of nodes (R10.12). Its words stand
//! in specs/Walk.antt and Ring.antt.
#![tactic(auto)]
