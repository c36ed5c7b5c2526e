//! The text of a generated play.
ghost use Rattle.std.specs.Prelude.{◌≡◌, ◌*◌, ◌≤◌, [], ◌∷◌, ◌++◌, IfOk, OnOk};
ghost use Rattle.play_format.specs.Texts.{numbers_text};
ghost use Rattle.play_format.specs.Spelling.{version_line};
ghost use Rattle.play_format.specs.declared.places.Version.TheVariants as version;
ghost use Rattle.play_gen.specs.Draws.{state_after};
ghost use Rattle.play_gen.specs.Lines.{opening, turn, turns, coordinate, colour, corner, triangle};
ghost use Rattle.play_gen.specs.Lines.{triangles, geode, side, ahead, height, place, heading};
ghost use Rattle.play_gen.specs.Lines.{placed, buffer, buffers, generated_text};
ghost use Rattle.play_gen.specs.Texts.{entry_text, lines_text};

use crate::draws::Draws;
use crate::lines::{push_line, push_numbers};
use pf_io::NoMemory;
use std::alloc::Global;

/// Adds the first line.
fn push_version(out: &mut Vec<u8>) -> Result<(), NoMemory>
    ensures { OnOk result (out.new.items ≡ out.old.items ++ (version_line version.One ++ 10 ∷ [])) }
{
    out.extend_from_slice(b"perfly 1\n")?;
    Ok(())
}

/// Adds the rest of the header, and the group that all else comes below.
#[tactic(auto, unfolding(crate::specs::Lines::opening))]
fn push_opening(out: &mut Vec<u8>) -> Result<(), NoMemory>
    ensures { OnOk result (out.new.items ≡ out.old.items ++ lines_text opening) }
{
    push_line(out, b"size", &[64, 48])?;
    push_line(out, b"lens", &[64, 4096, 409_600])?;
    push_line(out, b"back", &[0, 0, 64])?;
    push_line(out, b"app", &[])?;
    push_line(out, b"group", &[1])?;
    push_line(out, b"add", &[0, 1])
}

/// Adds a frame and the wait for merge `i`.
#[tactic(auto, unfolding(crate::specs::Lines::turn))]
fn push_turn(out: &mut Vec<u8>, i: u32) -> Result<(), NoMemory>
    ensures { OnOk result (out.new.items ≡ out.old.items ++ lines_text (turn i)) }
{
    push_line(out, b"frame", &[])?;
    push_line(out, b"wait", &[i64::from(i)])
}

/// Adds the turns of `n` merges.
fn push_turns(out: &mut Vec<u8>, n: u32) -> Result<(), NoMemory>
    requires { n ≤ 256 }
    ensures { OnOk result (out.new.items ≡ out.old.items ++ lines_text (turns n)) }
{
    for made in 0..n {
        push_turn(out, made + 1)?;
    }
    Ok(())
}

/// A coordinate: −4096 to 4095.
fn coordinate(draws: &mut Draws) -> i64
    ensures value { result ≡ coordinate draws.old.state 0 }
    ensures state { draws.new.state ≡ state_after 1 draws.old.state }
{
    i64::from(draws.below(8192)) - 4096
}

/// A colour: 0 to 255.
fn colour(draws: &mut Draws) -> i64
    ensures value { result ≡ colour draws.old.state 0 }
    ensures state { draws.new.state ≡ state_after 1 draws.old.state }
{
    i64::from(draws.below(256))
}

/// Adds a vertex with its colour.
#[tactic(auto, unfolding(crate::specs::Draws::state_after, crate::specs::Lines::corner))]
fn push_corner(out: &mut Vec<u8>, draws: &mut Draws) -> Result<(), NoMemory>
    ensures text { OnOk result
        (out.new.items ≡ out.old.items ++ numbers_text (corner draws.old.state)) }
    ensures state { draws.new.state ≡ state_after 6 draws.old.state }
{
    let x = coordinate(draws);
    let y = coordinate(draws);
    let z = coordinate(draws);
    let red = colour(draws);
    let green = colour(draws);
    let blue = colour(draws);
    push_numbers(out, &[x, y, z, red, green, blue])
}

/// Adds a triangle line.
#[tactic(auto, unfolding(crate::specs::Lines::triangle))]
fn push_triangle(out: &mut Vec<u8>, draws: &mut Draws) -> Result<(), NoMemory>
    ensures text { OnOk result
        (out.new.items ≡ out.old.items ++ entry_text (triangle draws.old.state)) }
    ensures state { OnOk result (draws.new.state ≡ state_after 18 draws.old.state) }
{
    out.push(b't')?;
    push_corner(out, draws)?;
    push_corner(out, draws)?;
    push_corner(out, draws)?;
    out.push(b'\n')?;
    Ok(())
}

/// Adds the triangle lines of a geode.
fn push_triangles(out: &mut Vec<u8>, draws: &mut Draws, count: u32) -> Result<(), NoMemory>
    ensures text { OnOk result
        (out.new.items ≡ out.old.items ++ lines_text (triangles count draws.old.state)) }
    ensures state { OnOk result (draws.new.state ≡ state_after (18 * count) draws.old.state) }
{
    for made in 0..count {
        push_triangle(out, draws)?;
    }
    Ok(())
}

/// Adds a geode with its triangle lines.
#[tactic(auto, unfolding(crate::specs::Lines::geode))]
fn push_geode(out: &mut Vec<u8>, draws: &mut Draws, id: u32) -> Result<(), NoMemory>
    ensures text { OnOk result
        (out.new.items ≡ out.old.items ++ lines_text (geode id draws.old.state)) }
    ensures state { OnOk result (draws.new.state ≡ state_after 289 draws.old.state) }
{
    let state = i64::from(draws.below(8));
    push_line(out, b"geode", &[i64::from(id), state, 16])?;
    push_triangles(out, draws, 16)?;
    Ok(())
}

/// How far to the side a geode stands.
fn side(draws: &mut Draws) -> i64
    ensures value { result ≡ side draws.old.state 0 }
    ensures state { draws.new.state ≡ state_after 1 draws.old.state }
{
    (i64::from(draws.below(32)) - 16) * 4096
}

/// How far ahead.
fn ahead(draws: &mut Draws) -> i64
    ensures value { result ≡ ahead draws.old.state 0 }
    ensures state { draws.new.state ≡ state_after 1 draws.old.state }
{
    (8 + i64::from(draws.below(32))) * 4096
}

/// How high.
fn height(draws: &mut Draws) -> i64
    ensures value { result ≡ height draws.old.state 0 }
    ensures state { draws.new.state ≡ state_after 1 draws.old.state }
{
    (i64::from(draws.below(16)) - 8) * 4096
}

/// Adds the line that says where the geode stands.
#[tactic(auto, unfolding(crate::specs::Draws::state_after, crate::specs::Lines::place))]
fn push_place(out: &mut Vec<u8>, draws: &mut Draws, id: u32) -> Result<(), NoMemory>
    ensures text { OnOk result
        (out.new.items ≡ out.old.items ++ entry_text (place id draws.old.state)) }
    ensures state { draws.new.state ≡ state_after 3 draws.old.state }
{
    let x = side(draws);
    let y = ahead(draws);
    let z = height(draws);
    push_line(out, b"trans", &[i64::from(id), x, y, z])
}

/// Adds the line of its heading.
#[tactic(auto, unfolding(crate::specs::Lines::heading))]
fn push_heading(out: &mut Vec<u8>, draws: &mut Draws, id: u32) -> Result<(), NoMemory>
    ensures text { OnOk result
        (out.new.items ≡ out.old.items ++ entry_text (heading id draws.old.state)) }
    ensures state { draws.new.state ≡ state_after 1 draws.old.state }
{
    let angle = i64::from(draws.below(3600));
    push_line(out, b"rot", &[i64::from(id), angle, 0, 0])
}

/// Adds the lines of merge `i` behind its geode.
#[tactic(auto, unfolding(crate::specs::Lines::placed))]
fn push_placed(out: &mut Vec<u8>, draws: &mut Draws, i: u32) -> Result<(), NoMemory>
    requires { i ≤ 256 }
    ensures text { OnOk result
        (out.new.items ≡ out.old.items ++ lines_text (placed i draws.old.state)) }
    ensures state { OnOk result (draws.new.state ≡ state_after 4 draws.old.state) }
{
    let dcs = 100 + 2 * i;
    push_line(out, b"add", &[i64::from(dcs), i64::from(101 + 2 * i)])?;
    push_place(out, draws, dcs)?;
    push_heading(out, draws, dcs)?;
    push_line(out, b"badd", &[1, i64::from(dcs)])?;
    push_line(out, b"merge", &[])?;
    Ok(())
}

/// Adds the buffer of merge `i`.
#[tactic(auto, unfolding(crate::specs::Lines::buffer))]
fn push_buffer(out: &mut Vec<u8>, draws: &mut Draws, i: u32) -> Result<(), NoMemory>
    requires { i ≤ 256 }
    ensures text { OnOk result
        (out.new.items ≡ out.old.items ++ lines_text (buffer i draws.old.state)) }
    ensures state { OnOk result (draws.new.state ≡ state_after 293 draws.old.state) }
{
    push_line(out, b"await", &[i64::from(i)])?;
    push_line(out, b"buffer", &[])?;
    push_line(out, b"dcs", &[i64::from(100 + 2 * i)])?;
    push_geode(out, draws, 101 + 2 * i)?;
    push_placed(out, draws, i)?;
    Ok(())
}

/// Adds the buffers of play `n`.
fn push_buffers(out: &mut Vec<u8>, n: u32) -> Result<(), NoMemory>
    requires { n ≤ 256 }
    ensures { OnOk result (out.new.items ≡ out.old.items ++ lines_text (buffers n n)) }
{
    let mut draws = Draws { state: n };
    for made in 0..n {
        push_buffer(out, &mut draws, made + 1)?;
    }
    Ok(())
}

/// Returns the text of generated play `n`, at most 256. Returns `Err(NoMemory)` if memory runs out.
pub fn generated_text(alloc: Global, n: u32) -> Result<Vec<u8>, NoMemory>
    requires { n ≤ 256 }
    ensures { IfOk result (λ text. text.items ≡ generated_text n) }
{
    let mut text = Vec::new(alloc);
    push_version(&mut text)?;
    push_opening(&mut text)?;
    push_turns(&mut text, n)?;
    push_line(&mut text, b"frame", &[])?;
    push_line(&mut text, b"dbase", &[])?;
    push_buffers(&mut text, n)?;
    Ok(text)
}
