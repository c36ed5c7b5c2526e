//! Whether a play could never end: whether a `wait` or an `await` of it waits for ever.
#![tactic(auto)]

mod check;
mod greedy;
mod laws;

pub use check::stuck;
pub use laws::{callers_that_wait_are_stuck, histories_are_orders, orders_go_no_further};
