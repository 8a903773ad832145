//! What the calls of a client are judged by: who it is, which names it can't use, and what is declared alike.
#![tactic(auto)]

mod alike;
mod client;
mod names;

pub use alike::{same_options, same_shape};
pub use client::{Client, ExchangeShape, is_anothers, owner_of};
pub use names::{is_refused_exchange, is_refused_queue, is_reserved, is_unbindable};
