//! The silent closure from text to text: `report::respond` reads silent arcs and start stages, a line each, and answers
//! which stages are reached, by how few silent arcs, and which lines were refused.

#![tactic(auto)]

pub mod line;
pub mod reading;
pub mod report;
