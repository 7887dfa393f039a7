//! Rule books: what they say, the changes that they take, and what is proved of their follow tables,
//! images and reports. A rule book is a nondeterministic automaton with silent arcs; its follow table is
//! its subset construction.
#![tactic(auto)]

mod change;
mod theorems;

pub use change::{Arc, BookFault, Change, MAX_CHANGES};
pub use theorems::{
    alteration_laws_hold, change_laws_hold, image_laws_hold, order_laws_hold, path_laws_hold,
    report_laws_hold, table_laws_hold, turn_laws_hold,
};
