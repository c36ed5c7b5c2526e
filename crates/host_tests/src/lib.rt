//! Tests of links, and of plays on hosts. They stand here and not beside the calls, since a crate with tests is proved
//! twice.
#![tactic(auto)]

#[cfg(test)]
mod calls;
#[cfg(test)]
mod links;
#[cfg(test)]
mod meetings;
#[cfg(test)]
mod merges;
#[cfg(test)]
mod passes;
#[cfg(test)]
mod played;
#[cfg(test)]
mod probes;
#[cfg(test)]
mod streams;
