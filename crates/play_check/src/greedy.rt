//! The greedy order of a play: each caller goes on until it is over or has to wait.
ghost use Rattle.std.specs.Prelude.{◌≡◌, ◌↔◌, IsSome, IfSome, MatchOption};
ghost use Rattle.play_check.specs.Stuck.{IsStuck, AreStuckLines};
ghost use Rattle.play_check.specs.Lines.{app_given, base_given, app_marks, base_marks, passed, GoesOn, Stands, line_at};

use pf_model::{AppLine, AppStep, BaseLine, BaseStep};

/// Returns the number of frames that a step of the application begins after `merges` merges, or `None` if it waits for
/// more.
fn frames_begun(step: &AppStep, merges: usize) -> Option<usize>
    ensures { result ≡ passed merges (app_given step.now) }
{
    match step {
        AppStep::Wait(count) if *count as usize > merges => None,
        AppStep::Frame => Some(1),
        _ => Some(0),
    }
}

/// Returns the number of merges that a step of the database process makes after `frames` frames, or `None` if it waits
/// for more.
fn merges_made(step: &BaseStep, frames: usize) -> Option<usize>
    ensures { result ≡ passed frames (base_given step.now) }
{
    match step {
        BaseStep::Await(count) if *count as usize > frames => None,
        BaseStep::Merge => Some(1),
        _ => Some(0),
    }
}

/// Returns the number of frames that the application's next line begins, and the lines behind it, or `None` if it is
/// over or waits.
fn next_app(lines: &[AppLine], merges: usize) -> Option<(usize, &[AppLine])>
    ensures { MatchOption result (Stands merges (app_marks lines.now))
        (λ p. GoesOn merges (app_marks lines.now) p.0 (app_marks p.1.now)) }
{
    let (line, rest) = lines.split_first()?;
    let begun = frames_begun(&line.step, merges)?;
    Some((begun, rest))
}

/// Returns the number of merges that the next line of the database process makes, and the lines behind it, or `None` if
/// it is over or waits.
fn next_dbase(lines: &[BaseLine], frames: usize) -> Option<(usize, &[BaseLine])>
    ensures { MatchOption result (Stands frames (base_marks lines.now))
        (λ p. GoesOn frames (base_marks lines.now) p.0 (base_marks p.1.now)) }
{
    let (line, rest) = lines.split_first()?;
    let made = merges_made(&line.step, frames)?;
    Some((made, rest))
}

/// Returns the line of the application's next step, or 0 if it is over.
fn line_at(app_left: &[AppLine]) -> u32
    ensures { result ≡ line_at (app_marks app_left.now) }
{
    match app_left.first() {
        Some(next) => next.line,
        None => 0,
    }
}

/// Returns the line of the database process's next step, or 0 if it is over.
fn base_line_at(dbase_left: &[BaseLine]) -> u32
    ensures { result ≡ line_at (base_marks dbase_left.now) }
{
    match dbase_left.first() {
        Some(next) => next.line,
        None => 0,
    }
}

/// Returns the lines of the first `wait` and of the first `await` of these sections that no order of their calls can
/// pass, each 0 if there is none, or `None` if all can be passed.
pub(crate) fn stuck_lines_of(app: &[AppLine], dbase: &[BaseLine]) -> Option<(u32, u32)>
    ensures stuck { IsSome result ↔ IsStuck app.now dbase.now }
    ensures lines { IfSome result (λ lines. AreStuckLines app.now dbase.now lines.0 lines.1) }
{
    let mut app_left = app;
    let mut dbase_left = dbase;
    let mut frames = 0;
    let mut merges = 0;
    loop {
        if let Some((begun, rest)) = next_app(app_left, merges) {
            frames += begun;
            app_left = rest;
        } else if let Some((made, rest)) = next_dbase(dbase_left, frames) {
            merges += made;
            dbase_left = rest;
        } else {
            break;
        }
    }
    if app_left.is_empty() && dbase_left.is_empty() {
        return None;
    }
    Some((line_at(app_left), base_line_at(dbase_left)))
}
