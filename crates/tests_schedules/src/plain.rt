//! The plain schedule: what a step makes of a match that is stepped, worked out from the entries
//! of its logs alone, and the walks that try every interleaving. Tests ask it beside a table.
//!
//! Nothing of it is shared with the tables that it is compared with: positions, spheres and frames
//! are worked out anew from the session, by the rules and not by their code. It promises no more
//! than that it is safe; what it is worth, the tests show, in which it and a second plain program
//! in another language come to the same counts. It touches nothing outside.

pub mod audits;
pub mod checks;
pub mod dice;
pub mod drawing;
pub mod explorer;
pub mod grounds;
pub mod known;
pub mod plain_steps;
pub mod possible;
pub mod replies;
pub mod scenes;
pub mod scripts;
pub mod stands;
pub mod taking;
pub mod texts;
pub mod turns;
pub mod worlds;
