//! How many merges the application waits for before it closes.
ghost use Rattle.std.specs.Prelude.{◌≡◌, ◌+◌, ◌<◌, ◌≤◌, ℕ, false, List};
ghost use Rattle.pf_history.specs.Logs.{Log};
ghost use Rattle.stage_parts.specs.declared.packets.Packet.{Packet};
ghost use Rattle.stage_parts.specs.States.{Setup};
ghost use Rattle.stage_parts.specs.Parts.{AppKeeps};
ghost use Rattle.frame_stages.specs.AppWorks.{IsGiven};

use frame_stages::AppStage;

/// The application is to wait for so many merges more before it closes. Returns how many these are.
pub(crate) fn await_more(app: &mut AppStage, more: u32) -> u32
    requires going { app.old.state.closed ≡ false }
    ensures state { app.new ≡ record app.old { merges = result } }
    ensures merges { app.old.merges + more < 4294967296 → result ≡ app.old.merges + more }
    ensures setup { (g : Setup) → IsGiven g app.old → IsGiven (record g { merges = result }) app.new }
    ensures part { (g : Setup) (seat : ℕ) (log : Log) (taken sent : List Packet) (stream : List ℕ)
        → IsGiven g app.old → AppKeeps g seat app.old.state log taken sent stream
        → AppKeeps (record g { merges = result }) seat app.new.state log taken sent stream }
{
    let merges = app.merges().saturating_add(more);
    app.note_merges(merges);
    merges
}

/// The application is to wait for one merge less before it closes, unless it has closed. Returns how many it waits for.
pub(crate) fn await_less(app: &mut AppStage) -> u32
    ensures state { app.new ≡ record app.old { merges = result } }
    ensures merges { app.old.merges ≤ result + 1 }
    ensures setup { (g : Setup) → IsGiven g app.old → IsGiven (record g { merges = result }) app.new }
    ensures part { (g : Setup) (seat : ℕ) (log : Log) (taken sent : List Packet) (stream : List ℕ)
        → IsGiven g app.old → AppKeeps g seat app.old.state log taken sent stream
        → AppKeeps (record g { merges = result }) seat app.new.state log taken sent stream }
{
    if app.has_closed() {
        return app.merges();
    }
    let merges = app.merges().saturating_sub(1);
    app.note_merges(merges);
    merges
}
