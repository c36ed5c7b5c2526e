//! A list whose items several threads claim, one after the other.
//!
//! [`for_each`] calls a function on each item of a list in several threads. No thread has a share of its own: each claims the next item
//! that nobody has claimed, so that one which is slow, or stands still, keeps the others from no more than the item that it has.
//! A claim is one atomic step, and nobody waits for another claim.
#![tactic(auto)]

mod calls;
mod claims;
mod view;

pub use calls::for_each;
pub use view::View;

#[cfg(test)]
mod tests;
