//! R11.4: the cases that paper 01 marks †, as a table in specs/Table.antt under one proved claim;
//! and rows of our own for a single node, in specs/Single.antt.
#![tactic(auto)]
