//! Which bindings of a topic exchange and of a headers exchange match.
#![tactic(auto)]

mod headers;
mod topic;
mod value;

pub use headers::headers_match;
pub use topic::topic_matches;
