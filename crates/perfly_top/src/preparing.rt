//! What a call has to play.
ghost use Rattle.std.specs.Prelude.{◌≡◌, ◌≢◌, ◌≤◌, ◌⊎◌, ℕ, map, None, Some, Err, IfOk, OnOk, IfErr, IfSome};
ghost use Rattle.std.specs.String.{string_bytes};
ghost use Rattle.pf_io.specs.Causes.{Calm, Rose};
ghost use Rattle.play_check.specs.Stuck.{IsStuck};
ghost use Rattle.program_words.specs.declared.words.Words.{Words};
ghost use Rattle.program_words.specs.Meaning.{meaning_of_words};
ghost use Rattle.perfly_top.specs.Calls.{IsGiven};
ghost use Rattle.perfly_top.specs.Endings.{IsWhy};
ghost use Rattle.perfly_top.specs.Readings.{ends_for, EndsFor};
ghost use Rattle.program_ends.specs.declared.stop.Stop.TheVariants as stop;

use crate::loading::given_play;
use pf_io::Source;
use play_check::stuck;
use play_format::Play;
use program_ends::Stop;
use program_words::{Words, read_words};
use std::alloc::Global;
use std::thread::Threads;

/// Returns what the words mean, or why they have no meaning.
pub(crate) fn right_words(alloc: Global, words: &[String]) -> Result<Words, Stop>
    ensures meaning { IfOk result (λ w. meaning_of_words (map string_bytes words.now) ≡ Some w) }
    ensures some { IfOk result (λ w. 1 ≤ w.ahead) }
    ensures few { IfOk result (λ w. w.ahead ≤ 4) }
    ensures low { IfOk result (λ w. IfSome w.make (λ n. 1 ≤ n)) }
    ensures high { IfOk result (λ w. IfSome w.make (λ n. n ≤ 256)) }
    ensures stream { IfOk result (λ w. IfSome w.stream (λ n. (1 ≤ n) × (n ≤ 4096))) }
    ensures wrong { IfErr result (λ s. ((s ≡ stop.Words) × (meaning_of_words (map string_bytes words.now) ≡ None))
        ⊎ (s ≡ stop.NoMemory)) }
{
    Ok(read_words(alloc, words)?)
}

/// Returns the play that the words and the source give, if it can end, or why there is none.
pub(crate) fn prepared<R: Threads + Sync, I: Source>(
    alloc: Global,
    rt: &R,
    words: Words,
    input: &mut I,
) -> Result<Play, Stop>
    requires low { IfSome words.make (λ n. 1 ≤ n) }
    requires high { IfSome words.make (λ n. n ≤ 256) }
    ensures given { IfOk result (λ play. IsGiven (Some words) (I.left input.old) (I.left input.new) words play) }
    ensures can_end { IfOk result (λ play. ¬ IsStuck play.app play.dbase) }
    ensures why { IfErr result (λ s. IsWhy (Some words) (I.left input.old) (I.left input.new) s) }
    ensures unread { (n : ℕ) → words.make ≡ Some n → I.left input.new ≡ I.left input.old }
    ensures fault { result ≡ Err stop.ReadFault → Rose (I.faults input.old) (I.faults input.new) }
    ensures calm { result ≢ Err stop.ReadFault → Calm (I.faults input.old) (I.faults input.new) }
    ensures one_end { OnOk result (I.ends input.new ≡ ends_for words.make (I.ends input.old)) }
    ensures no_end { (n : ℕ) → words.make ≡ Some n → I.ends input.new ≡ I.ends input.old }
    ensures ends { IfErr result (λ s. EndsFor (I.left input.old) (I.left input.new) (I.ends input.old) (I.ends input.new) s) }
{
    let play = given_play(alloc, rt, words.make, input)?;
    match stuck(&play) {
        Some((app, dbase)) => Err(Stop::Stuck(app, dbase)),
        None => Ok(play),
    }
}
