//! The words of a schedule's lines: what stands between spaces, and the numbers, names, places, values and names of links that
//! words write.
#![tactic(auto)]

pub mod choices;
pub mod fields;
pub mod laws;
pub mod links;
pub mod numbers;
pub mod values;
pub mod words;
