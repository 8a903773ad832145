//! What the headers of federated messages and bindings say: gates, stamps and propagated keys.
#![tactic(auto)]

mod entry;
mod gate;
mod hops;
mod laws;
mod names;
mod pairs;
mod propagation;
mod stamps;
mod values;

pub use entry::{HopEntry, HopObject, PlaceName};
pub use field_tables::Text;
pub use gate::gate_passes;
pub use hops::received_from;
pub use laws::{gates_decide, propagation_goes_on, results_have_spellings, stamps_name_the_place};
pub use propagation::propagate;
pub use stamps::{stamp_exchange, stamp_queue};
