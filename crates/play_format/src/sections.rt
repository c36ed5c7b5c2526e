//! The two sections of a play, step by step.
ghost use Rattle.std.specs.Prelude.{◌≡◌, ◌+◌, ◌<◌, ◌≤◌, Bool, MatchResult, length};
ghost use Rattle.play_format.specs.Outcomes.{Refuses};
ghost use Rattle.play_format.specs.Sections.{stand_of, unread_by, TriangleRead, TrianglesRead, IsAt, IsInBase, AppTurn, AppSection, BaseTurn, BaseSection};
ghost use Rattle.play_format.specs.declared.places.Place.TheVariants as place;

use crate::making::{app_step_of, base_step_of, tri_of};
use crate::reader::Reader;
use crate::refusal::ParseError;
use pf_model::{AppLine, BaseLine, Geom, Tri};
use std::alloc::Global;

/// What comes next in a section.
#[derive(Debug, Drop)]
pub enum Turn<T> {
    /// A step.
    Step(T),
    /// The line `dbase`.
    Section,
    /// The end.
    End,
}

/// The triangle of the next line, where one is due. `corners` is room for its numbers.
fn triangle(reader: &mut Reader, corners: &mut Vec<i32>) -> Result<Tri, ParseError>
    requires { 0 < reader.old.spot.due }
    ensures { MatchResult result
        (λ tri. TriangleRead (stand_of reader.old) (stand_of reader.new) tri)
        (λ e. Refuses e (unread_by reader.old)) }
{
    match reader.next(corners)? {
        Some(_) => Ok(tri_of(corners)),
        None => unreachable!(),
    }
}

/// Reads the triangle lines that are due one after the other.
fn triangles_in_turn(
    alloc: Global,
    reader: &mut Reader,
    corners: &mut Vec<i32>,
) -> Result<Vec<Tri>, ParseError>
    ensures { MatchResult result
        (λ ts. TrianglesRead (stand_of reader.old) (stand_of reader.new) ts.items)
        (λ e. Refuses e (unread_by reader.old)) }
{
    let mut tris = Vec::new(alloc);
    tris.reserve_exact(reader.spot.due as usize)?;
    while reader.spot.due > 0 {
        tris.push(triangle(reader, corners)?)?;
    }
    Ok(tris)
}

/// The triangles of the lines that are due, which were read before their turn or are read now.
fn triangles(
    alloc: Global,
    reader: &mut Reader,
    corners: &mut Vec<i32>,
) -> Result<Vec<Tri>, ParseError>
    ensures { MatchResult result
        (λ ts. TrianglesRead (stand_of reader.old) (stand_of reader.new) ts.items)
        (λ e. Refuses e (unread_by reader.old)) }
{
    if reader.spot.due > 0 {
        if let Some(tris) = reader.early_triangles() {
            return Ok(tris);
        }
    }
    triangles_in_turn(alloc, reader, corners)
}

/// Reads what comes next in the section of the application.
fn app_line(
    alloc: Global,
    reader: &mut Reader,
    numbers: &mut Vec<i32>,
    corners: &mut Vec<i32>,
) -> Result<Turn<AppLine>, ParseError>
    requires { IsAt place.App (stand_of reader.old) }
    ensures { MatchResult result
        (λ next. AppTurn (stand_of reader.old) (stand_of reader.new) next)
        (λ e. Refuses e (unread_by reader.old)) }
{
    let line = reader.line;
    let Some(command) = reader.next(numbers)? else {
        return Ok(Turn::End);
    };
    let tris = triangles(alloc, reader, corners)?;
    let geom = Geom::new(tris)?;
    match app_step_of(alloc, command, numbers, geom) {
        Some(step) => Ok(Turn::Step(AppLine { line, step })),
        None => Ok(Turn::Section),
    }
}

/// Reads the section of the application, and whether the line `dbase` ended it.
pub fn app_section(
    alloc: Global,
    reader: &mut Reader,
    numbers: &mut Vec<i32>,
    corners: &mut Vec<i32>,
) -> Result<(Vec<AppLine>, bool), ParseError>
    requires { IsAt place.App (stand_of reader.old) }
    ensures { MatchResult result
        (λ read. AppSection (stand_of reader.old) (stand_of reader.new) read.0.items read.1)
        (λ e. Refuses e (unread_by reader.old)) }
{
    let mut lines = Vec::new(alloc);
    'steps: loop {
        match app_line(alloc, reader, numbers, corners)? {
            Turn::Step(line) => lines.push(line)?,
            Turn::Section => return Ok((lines, true)),
            Turn::End => return Ok((lines, false)),
        }
    }
}

/// Reads what comes next in the section of the database process; None at its end.
fn base_line(
    alloc: Global,
    reader: &mut Reader,
    numbers: &mut Vec<i32>,
    corners: &mut Vec<i32>,
) -> Result<Option<BaseLine>, ParseError>
    requires { IsInBase (stand_of reader.old) }
    ensures { MatchResult result
        (λ next. BaseTurn (stand_of reader.old) (stand_of reader.new) next)
        (λ e. Refuses e (unread_by reader.old)) }
{
    let line = reader.line;
    let Some(command) = reader.next(numbers)? else {
        return Ok(None);
    };
    let tris = triangles(alloc, reader, corners)?;
    let geom = Geom::new(tris)?;
    let Some(step) = base_step_of(alloc, command, numbers, geom) else {
        unreachable!()
    };
    Ok(Some(BaseLine { line, step }))
}

/// Reads the section of the database process.
pub fn base_section(
    alloc: Global,
    reader: &mut Reader,
    numbers: &mut Vec<i32>,
    corners: &mut Vec<i32>,
) -> Result<Vec<BaseLine>, ParseError>
    requires { IsAt place.Dbase (stand_of reader.old) }
    ensures { MatchResult result
        (λ lines. BaseSection (stand_of reader.old) (stand_of reader.new) lines.items)
        (λ e. Refuses e (unread_by reader.old)) }
{
    let mut lines = Vec::new(alloc);
    while let Some(line) = base_line(alloc, reader, numbers, corners)? {
        lines.push(line)?;
    }
    Ok(lines)
}
