//! Breadth-first search over any graph: how many arcs a shortest walk from a start to each node has.
//!
//! This crate knows nothing of what the nodes and arcs stand for.

#![tactic(auto)]

pub mod breadth_first;
pub mod graph;
mod queue;
