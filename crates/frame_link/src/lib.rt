//! The links that carry frames from one stage to the next. A link is a list of items sent and a
//! list of items received, of which the second is always the front of the first.
//!
//! The stages are written over the traits `SendEnd` and `TakeEnd`. Between two threads a link is a
//! ring of a fixed number of places; on one thread it is a `ListLink`, both ends in one value.
#![tactic(auto)]

mod ends;
mod list_link;
mod ring_ends;
mod rings;

pub use ends::{SendEnd, TakeEnd};
pub use list_link::ListLink;
pub use ring_ends::{RingSend, RingTake};
pub use rings::{home, ring};
