//! Tests of the scene that all stages share, and of what is seen of it, of what no play reaches. They stand here and not
//! beside the calls, since a crate with tests is proved twice.
#![tactic(auto)]

#[cfg(test)]
mod plays;
#[cfg(test)]
mod sights;
