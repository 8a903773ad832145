//! The configuration that is kept of a definitions file.
#![tactic(auto)]

pub mod kept;
pub mod kept_file;
pub mod kept_items;
pub mod kept_parameters;
