// What crates above name of event_sim.
pub use event_sim::EventSim;
