//! The silent closure of stages: which stages are reached from given ones by silent arcs alone, and by how few.

#![tactic(auto)]

pub mod silent_arcs;
#[cfg(test)]
mod tests;
