//! Stations that fail, and runs that are stopped and go on.

mod faults;
mod orders;
mod stops;
