//! Tests of the calls on words, streams, plays and reports, of what no play reaches. They stand here and not beside the calls,
//! since a crate with tests is proved twice.
#![tactic(auto)]

#[cfg(test)]
mod fences;
#[cfg(test)]
mod formats;
#[cfg(test)]
mod reports;
#[cfg(test)]
mod streams;
#[cfg(test)]
mod words;
