//! Tests of the calls on points, triangles, images, draw lists and pictures that no play reaches. They stand here and
//! not beside the calls, since a crate with tests is proved twice.
#![tactic(auto)]

#[cfg(test)]
mod arithmetic;
#[cfg(test)]
mod faces;
#[cfg(test)]
mod images;
#[cfg(test)]
mod lists;
#[cfg(test)]
mod rasters;
