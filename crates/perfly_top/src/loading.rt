//! The play of a call.
ghost use Rattle.std.specs.Prelude.{◌≡◌, ◌≢◌, ◌<◌, ◌≤◌, ◌⊎◌, ℕ, length, None, Some, Ok, Err, IfOk, IfErr, IfSome, OnOk};
ghost use Rattle.pf_io.specs.Causes.{Calm, Rose, counted};
ghost use Rattle.play_format.specs.declared.refusal.Refusal.{Refusal};
ghost use Rattle.play_format.specs.Reads.{Reads, HasReading, first_refusal};
ghost use Rattle.perfly_top.specs.Calls.{given_text, IsReadFor};
ghost use Rattle.perfly_top.specs.Readings.{Gave, HasNoPlay, ends_for, EndsFor};
ghost use Rattle.program_ends.specs.declared.stop.Stop.{Stop};
ghost use Rattle.program_ends.specs.declared.stop.Stop.TheVariants as stop;

use pf_io::{Source, read_all};
use play_format::{Play, parse_beside};
use play_gen::make_play;
use program_ends::Stop;
use std::alloc::Global;
use std::thread::Threads;

/// Returns the bytes of the source, to its end or to the limit.
fn read_input<I: Source>(alloc: Global, input: &mut I) -> Result<Vec<u8>, Stop>
    ensures gave { IfOk result (λ v. Gave (I.left input.old) (I.left input.new) v.items) }
    ensures why { IfErr result (λ s. HasNoPlay None (I.left input.old) (I.left input.new) s) }
    ensures fault { result ≡ Err stop.ReadFault → Rose (I.faults input.old) (I.faults input.new) }
    ensures calm { result ≢ Err stop.ReadFault → Calm (I.faults input.old) (I.faults input.new) }
    ensures one_end { IfOk result (λ v. length v.items < 16777217 → I.ends input.new ≡ counted (I.ends input.old)) }
    ensures limit { IfOk result (λ v. length v.items ≡ 16777217 → I.ends input.new ≡ I.ends input.old) }
    ensures ends { IfErr result (λ s. EndsFor (I.left input.old) (I.left input.new) (I.ends input.old) (I.ends input.new) s) }
{
    Ok(read_all(alloc, input)?)
}

/// Returns the play that bytes spell.
fn play_of<R: Threads + Sync>(alloc: Global, rt: &R, bytes: &[u8]) -> Result<Play, Stop>
    ensures found { IfOk result (λ p. Reads bytes.now p) }
    ensures refused { (r : Refusal) → result ≡ Err (stop.Refused r)
        → (first_refusal bytes.now ≡ Some r) × ¬ HasReading bytes.now }
    ensures causes { (s : Stop) → result ≡ Err s → ((r : Refusal) × (s ≡ stop.Refused r)) ⊎ (s ≡ stop.NoMemory) }
{
    Ok(parse_beside(rt, alloc, bytes)?)
}

/// Returns the play that the source spells.
fn read_play<R: Threads + Sync, I: Source>(
    alloc: Global,
    rt: &R,
    input: &mut I,
) -> Result<Play, Stop>
    ensures spelled { IfOk result (λ p. IfSome (I.left input.old) (λ text. Reads text p)) }
    ensures read { OnOk result (IsReadFor None (I.left input.old) (I.left input.new)) }
    ensures why { IfErr result (λ s. HasNoPlay None (I.left input.old) (I.left input.new) s) }
    ensures fault { result ≡ Err stop.ReadFault → Rose (I.faults input.old) (I.faults input.new) }
    ensures calm { result ≢ Err stop.ReadFault → Calm (I.faults input.old) (I.faults input.new) }
    ensures one_end { OnOk result (I.ends input.new ≡ counted (I.ends input.old)) }
    ensures ends { IfErr result (λ s. EndsFor (I.left input.old) (I.left input.new) (I.ends input.old) (I.ends input.new) s) }
{
    let bytes = read_input(alloc, input)?;
    play_of(alloc, rt, bytes.as_slice())
}

/// Returns the play of a call: made from the number, if there is one, and else the one that the source spells.
pub(crate) fn given_play<R: Threads + Sync, I: Source>(
    alloc: Global,
    rt: &R,
    make: Option<u16>,
    input: &mut I,
) -> Result<Play, Stop>
    requires low { IfSome make (λ n. 1 ≤ n) }
    requires high { IfSome make (λ n. n ≤ 256) }
    ensures spelled { IfOk result (λ p. IfSome (given_text make (I.left input.old)) (λ text. Reads text p)) }
    ensures read { OnOk result (IsReadFor make (I.left input.old) (I.left input.new)) }
    ensures unread { (n : ℕ) → make ≡ Some n → I.left input.new ≡ I.left input.old }
    ensures why { IfErr result (λ s. HasNoPlay make (I.left input.old) (I.left input.new) s) }
    ensures fault { result ≡ Err stop.ReadFault → Rose (I.faults input.old) (I.faults input.new) }
    ensures calm { result ≢ Err stop.ReadFault → Calm (I.faults input.old) (I.faults input.new) }
    ensures one_end { OnOk result (I.ends input.new ≡ ends_for make (I.ends input.old)) }
    ensures no_end { (n : ℕ) → make ≡ Some n → I.ends input.new ≡ I.ends input.old }
    ensures ends { IfErr result (λ s. EndsFor (I.left input.old) (I.left input.new) (I.ends input.old) (I.ends input.new) s) }
{
    match make {
        Some(n) => Ok(make_play(alloc, u32::from(n))?),
        None => read_play(alloc, rt, input),
    }
}
