//! Simulates sessions of a terminal and a card that are given in advance, and records their exchanges.
//!
//! A session is an answer to reset, commands with their replies, and what happens to each block on the line.
//! [`simulate`] returns the exchange. `specs/Simulation.antt` says which event happens next, as a function of the last
//! turn. The recorder of exchange_core says what an event does.
#![tactic(auto)]

mod fates;
pub mod fault;
pub mod laws;
pub mod simulation;

pub use fault::SimulationFault;
pub use simulation::simulate;
