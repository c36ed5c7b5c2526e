//! The first free merge of a play, found in one pass over each of its two sections.
ghost use Rattle.std.specs.Prelude.{◌≡◌, ◌↔◌, IsTrue, nat_lt};
ghost use Rattle.std.specs.List.{list_any};
ghost use Rattle.play_fences.specs.Fences.{first_free_of, IsFenced, behind_frames};
ghost use Rattle.play_fences.specs.Rests.{own_left, StandsAtOwn, is_own_step, is_frame_step, waited_with};

use pf_model::{AppLine, AppStep, BaseLine, BaseStep};
use play_format::Play;

/// Where the application stands: the lines that are left, and for how many merges the waits before them ask.
#[derive(Clone, Copy)]
struct Rest<'a> {
    lines: &'a [AppLine],
    waited: u32,
}

/// Returns whether a step asks for an edit, a view or a Frame.
fn is_own_step(step: &AppStep) -> bool
    ensures { result ≡ is_own_step step.now }
{
    matches!(
        step,
        AppStep::Edit(_) | AppStep::View(_, _) | AppStep::Frame
    )
}

/// Returns whether a step asks for a Frame.
fn is_frame_step(step: &AppStep) -> bool
    ensures { result ≡ is_frame_step step.now }
{
    matches!(step, AppStep::Frame)
}

/// Returns for how many merges the waits up to a step ask, with it.
fn waited_with(step: &AppStep, waited: u32) -> u32
    ensures { result ≡ waited_with waited step.now }
{
    match step {
        AppStep::Wait(merges) => waited.max(*merges),
        _ => waited,
    }
}

/// Returns the lines from the next edit, view or Frame on.
fn at_next_own(lines: &[AppLine], waited: u32) -> Rest
    ensures same { own_left result.waited result.lines.now ≡ own_left waited lines.now }
    ensures own { StandsAtOwn result.lines.now }
{
    let mut lines = lines;
    let mut waited = waited;
    while let Some((line, behind)) = lines.split_first() {
        if is_own_step(&line.step) {
            return Rest { lines, waited };
        }
        waited = waited_with(&line.step, waited);
        lines = behind;
    }
    Rest { lines, waited }
}

/// Returns the lines behind the next `frames` Frames, from the next edit, view or Frame on.
fn behind_frames(lines: &[AppLine], waited: u32, frames: u32) -> Rest
    ensures same { own_left result.waited result.lines.now ≡ behind_frames frames (own_left waited lines.now) }
    ensures own { StandsAtOwn result.lines.now }
{
    let mut lines = lines;
    let mut waited = waited;
    let mut left = frames;
    while left > 0 {
        let Some((line, behind)) = lines.split_first() else {
            break;
        };
        if is_frame_step(&line.step) {
            left -= 1;
        }
        waited = waited_with(&line.step, waited);
        lines = behind;
    }
    at_next_own(lines, waited)
}

/// Returns whether a command that is left does not wait for this merge. The waits only rise, so the next one decides.
fn comes_before(lines: &[AppLine], waited: u32, merge: usize) -> bool
    requires { StandsAtOwn lines.now }
    ensures { result ≡ list_any (λ a. nat_lt a.need merge) (own_left waited lines.now) }
{
    match lines.first() {
        Some(_) => (waited as usize) < merge,
        None => false,
    }
}

/// Returns the first free merge of two sections, counted from 1.
fn first_free_of(app: &[AppLine], dbase: &[BaseLine]) -> Option<usize>
    ensures { result ≡ first_free_of app.now dbase.now }
{
    let mut rest = at_next_own(app, 0);
    let mut passed = 0;
    let mut awaited = 0;
    let mut merges = 0;
    for line in dbase {
        match &line.step {
            BaseStep::Await(frames) => awaited = awaited.max(*frames),
            BaseStep::Merge => {
                merges += 1;
                rest = behind_frames(rest.lines, rest.waited, awaited - passed);
                passed = awaited;
                if comes_before(rest.lines, rest.waited, merges) {
                    return Some(merges);
                }
            }
            _ => {}
        }
    }
    None
}

/// Returns the first free merge of a play, counted from 1, or `None` if the play is fenced. A merge is free if it may
/// be at more than one place among the application's own commands: behind the frame that it awaits comes an edit, a
/// view or a frame that does not wait for it.
///
/// It takes time in proportion to the number of steps, and no memory.
pub fn first_free_merge(play: &Play) -> Option<usize>
    ensures { result ≡ first_free_of play.now.app play.now.dbase }
{
    first_free_of(play.app(), play.dbase())
}

/// Returns whether no merge of a play is free, so that all its whole histories have the same pictures.
pub fn is_fenced(play: &Play) -> bool
    ensures { IsTrue result ↔ IsFenced play.now.app play.now.dbase }
{
    first_free_merge(play).is_none()
}
