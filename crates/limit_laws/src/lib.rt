//! The numbers of the limits.
//!
//! Code and definitions name a limit by its constant, so no other clause says which number that is.
//! This law does: a constant that is changed is refused here. It does nothing and touches nothing.
#![tactic(auto)]

ghost use Rattle.limit_laws.specs.Limits.{LimitsAre};

/// Each limit is the number that the pages say, digit by digit (`specs/Limits.antt`).
pub fn limits_are()
    ensures { LimitsAre }
{}
