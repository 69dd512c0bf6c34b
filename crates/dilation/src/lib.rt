//! Where the players of a session can be, by where they were last seen.
//!
//! A [`Dilation`] keeps of each player its cell, and the set of the cells to which it was followed from there, for so many
//! turns; contracts see it as the list of the cells and that of what is kept. It keeps no session: each call is handed the one
//! that it was made for. The crate promises that the set
//! which [`Dilation::reached`] gives has exactly the cells that the definitions say the player can have reached, by its own
//! speed, so many turns after it stood on its cell: walls are walked round, never through. [`Dilation::advance`] makes it that of other turns:
//! it grows by what it lacks alone, and [`Steps`] counts each growth. All memory is taken by `new`, from the allocator that
//! it is given, and nothing else is touched.
#![tactic(auto)]

mod growth;
mod standing;
mod steps;

pub use standing::Dilation;
pub use steps::Steps;
