//! A row of the list: what is played, and how it is to end.

use crate::wanted::Wanted;
use anyhow::{Context, Result, bail};
use std::alloc::Global;

/// A stream that a run is given.
#[derive(Clone, Copy, Debug, PartialEq, Eq)]
pub enum Stream {
    Source,
    Frames,
    Report,
}

/// The places at which a stream fails, one in each run.
#[derive(Clone, Copy)]
pub struct Faults {
    pub stream: Stream,
    pub first: u64,
    pub last: u64,
}

/// Lines of a play that stand several times, counted from 1.
#[derive(Clone, Copy)]
pub struct Repeat {
    pub first: usize,
    pub last: usize,
    pub times: usize,
}

/// A row.
#[derive(Drop)]
pub struct Row {
    pub name: String,
    pub words: Vec<String>,
    /// The file that the play begins with, if any.
    pub play: String,
    /// The lines behind it.
    pub lines: String,
    /// Which of all these lines stand several times.
    pub repeat: Option<Repeat>,
    /// What follows as a line that is cut off.
    pub cut: String,
    pub faults: Option<Faults>,
    pub status: u8,
    pub stream: Wanted,
    pub report: Wanted,
}

impl Row {
    /// Reads a row from its lines, each a key and a value.
    pub fn read(alloc: Global, block: &str) -> Result<Row> {
        let mut row = Row {
            name: String::new(alloc),
            words: Vec::new(alloc),
            play: String::new(alloc),
            lines: String::new(alloc),
            repeat: None,
            cut: String::new(alloc),
            faults: None,
            status: 0,
            stream: Wanted::Bytes(Vec::new(alloc)),
            report: Wanted::Bytes(Vec::new(alloc)),
        };
        for line in block.lines() {
            let (key, value) = line.split_once(' ').unwrap_or((line, ""));
            row.set(alloc, key, value)
                .context(format_args!("{}: {line}", row.name.as_str()))?;
        }
        Ok(row)
    }

    /// Takes one line.
    fn set(&mut self, alloc: Global, key: &str, value: &str) -> Result<()> {
        match key {
            "#" => {}
            "row" => self.name.push_str(value)?,
            "words" => self.set_words(alloc, value)?,
            "word" => self.words.push(String::from_str(alloc, value)?)?,
            "play" => self.play.push_str(value)?,
            "line" => self.set_line(value)?,
            "repeat" => self.repeat = Some(repeat_of(value)?),
            "cut" => self.cut.push_str(value)?,
            "source" => self.faults = Some(faults_of(Stream::Source, value)?),
            "frames" => self.faults = Some(faults_of(Stream::Frames, value)?),
            "report" => self.faults = Some(faults_of(Stream::Report, value)?),
            "status" => self.status = value.parse::<u8>().context("a status")?,
            "stream" => self.stream = Wanted::bytes_of(alloc, value)?,
            "stream-sum" => self.stream = Wanted::sum_of(value)?,
            "told" => self.report.push_line(value)?,
            "told-sum" => self.report = Wanted::sum_of(value)?,
            "tells" => self.report.push_wanted_line(alloc, value)?,
            _ => bail!("no line of a row"),
        }
        Ok(())
    }

    fn set_line(&mut self, line: &str) -> Result<()> {
        self.lines.push_str(line)?;
        self.lines.push('\n')?;
        Ok(())
    }

    fn set_words(&mut self, alloc: Global, value: &str) -> Result<()> {
        for word in value.split(' ') {
            self.words.push(String::from_str(alloc, word)?)?;
        }
        Ok(())
    }
}

/// Reads `9`, a place, or `0 46`, the first and the last of several.
fn faults_of(stream: Stream, value: &str) -> Result<Faults> {
    let (first, last) = value.split_once(' ').unwrap_or((value, value));
    Ok(Faults {
        stream,
        first: first.parse::<u64>().context("a place")?,
        last: last.parse::<u64>().context("a place")?,
    })
}

/// Reads `7 9 1000`: the lines 7 to 9, a thousand times.
fn repeat_of(value: &str) -> Result<Repeat> {
    let (first, rest) = value.split_once(' ').context("three numbers")?;
    let (last, times) = rest.split_once(' ').context("three numbers")?;
    Ok(Repeat {
        first: first.parse::<usize>().context("a line")?,
        last: last.parse::<usize>().context("a line")?,
        times: times.parse::<usize>().context("a number of times")?,
    })
}
