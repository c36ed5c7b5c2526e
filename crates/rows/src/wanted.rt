//! What a run is to leave in a sink.

use anyhow::{Context, Result, bail};
use hex::FromHex;
use sha2::{Digest, Sha256};
use std::alloc::{AllocError, Global};

/// What is known of the bytes that a run leaves in a sink.
#[derive(Drop)]
pub enum Wanted {
    /// The bytes themselves.
    Bytes(Vec<u8>),
    /// Their number, and their SHA-256 sum.
    Sum(usize, [u8; 32]),
    /// A text that has these lines.
    Lines(Vec<String>),
}

impl Wanted {
    /// Reads bytes as hexadecimal digits.
    pub fn bytes_of(alloc: Global, text: &str) -> Result<Wanted> {
        Ok(Wanted::Bytes(hex::decode(alloc, text).context("bytes")?))
    }

    /// Reads a number of bytes and their sum, as in `46 5891b5..`.
    pub fn sum_of(text: &str) -> Result<Wanted> {
        let (length, sum) = text.split_once(' ').context("a number and a sum")?;
        let length = length.parse::<usize>().context("a number of bytes")?;
        let sum = <[u8; 32] as FromHex>::from_hex(sum).context("a sum")?;
        Ok(Wanted::Sum(length, sum))
    }

    /// Adds a line to the bytes.
    pub fn push_line(&mut self, line: &str) -> Result<()> {
        let Wanted::Bytes(bytes) = self else {
            bail!("a line behind a sum");
        };
        bytes.extend_from_slice(line.as_bytes())?;
        bytes.push(b'\n')?;
        Ok(())
    }

    /// Adds a line to those that the text has to have.
    pub fn push_wanted_line(&mut self, alloc: Global, line: &str) -> Result<()> {
        let line = String::from_str(alloc, line)?;
        if let Wanted::Lines(lines) = self {
            lines.push(line)?;
        } else {
            *self = Wanted::Lines(one_line(alloc, line)?);
        }
        Ok(())
    }

    /// The room that a sink needs for the bytes, and for some that are too many.
    pub fn room(&self) -> usize {
        let length = match self {
            Wanted::Bytes(bytes) => bytes.len(),
            Wanted::Sum(length, _) => *length,
            Wanted::Lines(_) => 0,
        };
        length.saturating_add(65_536)
    }

    /// Whether these are the bytes; where the sink failed at the place `cut`, whether they are those before it.
    pub fn fits(&self, bytes: &[u8], cut: Option<usize>) -> bool {
        match self {
            Wanted::Bytes(whole) => bytes == front(whole.as_slice(), cut),
            Wanted::Sum(length, sum) => {
                cut.is_none() && bytes.len() == *length && Sha256::digest(bytes) == *sum
            }
            Wanted::Lines(lines) => lines
                .iter()
                .all(|line| has_line(bytes, line.as_str().as_bytes())),
        }
    }
}

fn one_line(alloc: Global, line: String) -> Result<Vec<String>, AllocError> {
    let mut lines = Vec::new(alloc);
    lines.push(line)?;
    Ok(lines)
}

/// The bytes before the place `cut`, or all.
fn front(bytes: &[u8], cut: Option<usize>) -> &[u8] {
    match cut {
        Some(place) if place < bytes.len() => &bytes[..place],
        _ => bytes,
    }
}

/// Whether a text has a line.
fn has_line(text: &[u8], line: &[u8]) -> bool {
    text.split(|byte| *byte == b'\n').any(|other| other == line)
}
