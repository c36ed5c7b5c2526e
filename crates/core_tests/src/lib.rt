//! Tests of the core that the stages make on one thread. They stand here and not beside the calls, since a crate with tests
//! is proved twice.
#![tactic(auto)]

#[cfg(test)]
mod events;
#[cfg(test)]
mod live;
