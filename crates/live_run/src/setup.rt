//! What the words of a live run mean.
ghost use Rattle.std.specs.Prelude.{◌≡◌, ◌≤◌, ◌⊎◌, false, map, None, Some, IfOk, IfErr, IfSome};
ghost use Rattle.std.specs.String.{string_bytes};
ghost use Rattle.program_ends.specs.declared.stop.Stop.TheVariants as stop;
ghost use Rattle.live_run.specs.LiveWords.{live_mode, are_live, live_meaning};

use mode_hosts::Setup;
use program_ends::Stop;
use program_words::{Mode, Words, read_words};
use std::alloc::Global;

/// Returns the mode of hosts that a mode of the words means.
fn live_mode(mode: Mode) -> mode_hosts::Mode
    ensures { result ≡ live_mode mode }
{
    match mode {
        Mode::Appculldraw => mode_hosts::Mode::Appculldraw,
        Mode::AppCulldraw => mode_hosts::Mode::AppCulldraw,
        Mode::AppcullDraw => mode_hosts::Mode::AppcullDraw,
        Mode::AppCullDraw => mode_hosts::Mode::AppCullDraw,
    }
}

/// Returns whether right words of perfly are words of a live run: these have neither `--dbase` nor `--make` nor `--probe`.
fn are_live(words: Words) -> bool
    ensures { result ≡ are_live words }
{
    !words.dbase && words.make.is_none() && words.probe.is_none()
}

/// Returns what the words ask for, or why they have no meaning.
pub(crate) fn live_setup(alloc: Global, words: &[String]) -> Result<Setup, Stop>
    ensures meaning { IfOk result (λ s. live_meaning (map string_bytes words.now) ≡ Some s) }
    ensures some { IfOk result (λ s. 1 ≤ s.ahead) }
    ensures few { IfOk result (λ s. s.ahead ≤ 4) }
    ensures here { IfOk result (λ s. s.dbase ≡ false) }
    ensures stream { IfOk result (λ s. IfSome s.stream (λ n. (1 ≤ n) × (n ≤ 4096))) }
    ensures wrong { IfErr result (λ s. ((s ≡ stop.Words) × (live_meaning (map string_bytes words.now) ≡ None))
        ⊎ (s ≡ stop.NoMemory)) }
{
    let words = read_words(alloc, words)?;
    if !are_live(words) {
        return Err(Stop::Words);
    }
    Ok(Setup {
        mode: live_mode(words.mode),
        dbase: false,
        ahead: words.ahead,
        probe: None,
        stream: words.stream,
    })
}
