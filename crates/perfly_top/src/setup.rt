//! How the words divide the stages of a play among threads.
ghost use Rattle.std.specs.Prelude.{◌≡◌, false, IfSome, IfNone};
ghost use Rattle.perfly_top.specs.Setups.{host_mode, setup_of, is_on_one_thread, words_alone};

use mode_hosts::Setup;
use program_words::{Mode, Words};

/// Who plays a play.
#[derive(Clone, Copy, Debug, PartialEq, Eq)]
pub(crate) enum Players {
    /// One thread, with up to this number of frames in flight. Nothing is shared, and nobody waits.
    Alone(u8),
    /// The hosts of a setup.
    Hosts(Setup),
}

/// Returns the mode of hosts that a mode of the words means.
fn host_mode(mode: Mode) -> mode_hosts::Mode
    ensures { result ≡ host_mode mode }
{
    match mode {
        Mode::Appculldraw => mode_hosts::Mode::Appculldraw,
        Mode::AppCulldraw => mode_hosts::Mode::AppCulldraw,
        Mode::AppcullDraw => mode_hosts::Mode::AppcullDraw,
        Mode::AppCullDraw => mode_hosts::Mode::AppCullDraw,
    }
}

/// Returns the setup of hosts that the words mean.
pub(crate) fn setup_of(words: Words) -> Setup
    ensures { result ≡ setup_of words }
{
    Setup {
        mode: host_mode(words.mode),
        dbase: words.dbase,
        ahead: words.ahead,
        probe: words.probe,
        stream: words.stream,
    }
}

/// What can be asked of one thread: the words without a mode of several threads, `--dbase`, `--probe` and `--stream`.
#[derive(Clone, Copy, Debug, PartialEq, Eq)]
pub struct AloneWords {
    /// How many frames may be in flight, 1 to 4.
    pub ahead: u8,
    /// The number of the generated play, 1 to 256, if one is to be played in place of the source's.
    pub make: Option<u16>,
}

impl AloneWords {
    /// Returns what these words ask of one thread, or None if they ask for a mode of several threads, for `--dbase`, for
    /// `--probe` or for `--stream`.
    pub fn of(words: Words) -> Option<AloneWords>
        ensures same { IfSome result (λ alone. words_alone alone ≡ words) }
        ensures more { IfNone result (is_on_one_thread words ≡ false) }
    {
        if is_on_one_thread(words) {
            Some(AloneWords {
                ahead: words.ahead,
                make: words.make,
            })
        } else {
            None
        }
    }
}

/// Returns whether the words put all stages on one thread, so that nothing is shared.
fn is_on_one_thread(words: Words) -> bool
    ensures { result ≡ is_on_one_thread words }
{
    words.mode == Mode::Appculldraw
        && !words.dbase
        && words.probe.is_none()
        && words.stream.is_none()
}
