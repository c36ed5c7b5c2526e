//! The turns that the application takes at the shared scene.
ghost use Rattle.std.specs.Prelude.{◌≡◌, length};
ghost use Rattle.std.specs.Vec.{vec_capacity};
ghost use Rattle.seat_lock.specs.Log.{Found};
ghost use Rattle.pf_history.specs.declared.commands.Command.TheVariants as command;
ghost use Rattle.pf_scene.specs.Acts.{MayView, MaySync};
ghost use Rattle.frame_stages.specs.declared.script.Next.TheVariants as next;
ghost use Rattle.frame_stages.specs.Scripts.{next_step, IsNext};
ghost use Rattle.frame_stages.specs.Looks.{Saw};
ghost use Rattle.frame_stages.specs.AppWorks.{merges_in};
ghost use Rattle.frame_stages.specs.Copies.{HoldsCopies, AreHomeward};
ghost use Rattle.frame_stages.specs.AppTurns.{Comes, ComesEdit, ComesFrame, LeavesHome, Marks};

use crate::looks::sight;
use crate::script::Script;
use pf_model::{AppStep, View};
use pf_scene::{
    Channels, EditAct, FrameAct, Home, Outcome, Scene, Sight, StopAct, SyncAct, ViewAct,
};
use seat_lock::Desk;
use stage_parts::Load;
use std::alloc::Global;
use std::mem;
use update_lists::Updates;

/// What a turn came to by which a command was to be entered.
#[derive(Clone, Copy, Debug, PartialEq, Eq)]
pub(crate) enum Came {
    /// The command was entered.
    Entered,
    /// The scene that was found did not meet the command's condition. Nothing changed.
    NotNow,
    /// There was no memory. No entry was added.
    NoMemory,
}

/// What is to be seen of the scene that is found.
pub(crate) fn look<D: Desk<Scene>>(desk: &mut D) -> Sight
    ensures saw { Saw (D.number desk.old) (D.seen desk.old) (D.told desk.old) result (D.seen desk.new) }
    ensures merges { result.merges ≡ merges_in (D.seen desk.new) }
    ensures found { Found (D.number desk.old) (D.seen desk.old) (D.seen desk.new) }
    ensures told { D.told desk.new ≡ D.told desk.old }
    ensures number { D.number desk.new ≡ D.number desk.old }
    ensures stands { D.stands desk.new ≡ D.stands desk.old }
{
    sight(desk)
}

/// Makes the edit of the next line, which is passed where it was made.
pub(crate) fn make_edit<D: Desk<Scene>>(desk: &mut D, script: &mut Script) -> Came
    requires next { IsNext next.Edit (next_step script.old.rest) }
    ensures counted { HoldsCopies (D.told desk.old) → HoldsCopies (D.told desk.new) }
    ensures came { ComesEdit (D.number desk.old) script.old (D.seen desk.old) (D.told desk.old) result
        script.new (D.seen desk.new) (D.told desk.new) }
    ensures number { D.number desk.new ≡ D.number desk.old }
    ensures stands { D.stands desk.new ≡ D.stands desk.old }
{
    match script.exchange(AppStep::Sync) {
        AppStep::Edit(edit) => match desk.turn(EditAct { edit }) {
            Outcome::Entered(_) => {
                script.pass();
                Came::Entered
            }
            Outcome::NotNow(edit) => {
                let _ = script.exchange(AppStep::Edit(edit));
                Came::NotNow
            }
            Outcome::NoMemory(edit) => {
                let _ = script.exchange(AppStep::Edit(edit));
                Came::NoMemory
            }
        },
        _ => unreachable!(),
    }
}

/// Sets the view of a channel.
pub(crate) fn make_view<D: Desk<Scene>>(desk: &mut D, channel: u8, view: View) -> Came
    ensures counted { HoldsCopies (D.told desk.old) → HoldsCopies (D.told desk.new) }
    ensures came { Comes (D.number desk.old) (command.View channel view) (λ s. MayView s channel view)
        (D.seen desk.old) (D.told desk.old) result (D.seen desk.new) (D.told desk.new) }
    ensures number { D.number desk.new ≡ D.number desk.old }
    ensures stands { D.stands desk.new ≡ D.stands desk.old }
{
    match desk.turn(ViewAct { channel, view }) {
        Outcome::Entered(_) => Came::Entered,
        Outcome::NotNow(_) => Came::NotNow,
        Outcome::NoMemory(_) => Came::NoMemory,
    }
}

/// Retires so many frames, and sends the lists home that came back. Where that was not to be, the lists stay.
pub(crate) fn make_sync<D: Desk<Scene>>(
    alloc: Global,
    desk: &mut D,
    retired: u32,
    lists: &mut Vec<Updates>,
) -> Came
    ensures counted { AreHomeward retired (D.told desk.old) lists.old.items
        → HoldsCopies (D.told desk.old) → HoldsCopies (D.told desk.new) }
    ensures home { LeavesHome result lists.old.items lists.new.items }
    ensures capacity { vec_capacity lists.new ≡ vec_capacity lists.old }
    ensures came { Comes (D.number desk.old) (command.Sync retired) (λ s. MaySync s retired)
        (D.seen desk.old) (D.told desk.old) result (D.seen desk.new) (D.told desk.new) }
    ensures number { D.number desk.new ≡ D.number desk.old }
    ensures stands { D.stands desk.new ≡ D.stands desk.old }
{
    let home = Home {
        lists: mem::replace(lists, Vec::new(alloc)),
    };
    match desk.turn(SyncAct { retired, home }) {
        Outcome::Entered(synced) => {
            *lists = synced.home.lists;
            Came::Entered
        }
        Outcome::NotNow(home) => {
            *lists = home.lists;
            Came::NotNow
        }
        Outcome::NoMemory(home) => {
            *lists = home.lists;
            Came::NoMemory
        }
    }
}

/// Begins a frame with a load, which then has the frame's cut and the room for it.
pub(crate) fn make_frame<D: Desk<Scene>>(
    alloc: Global,
    desk: &mut D,
    ahead: u8,
    load: &mut Load,
) -> Came
    ensures counted { HoldsCopies (D.told desk.old) → HoldsCopies (D.told desk.new) }
    ensures came { ComesFrame (D.number desk.old) ahead load.old (D.seen desk.old) (D.told desk.old) result
        load.new (D.seen desk.new) (D.told desk.new) }
    ensures number { D.number desk.new ≡ D.number desk.old }
    ensures stands { D.stands desk.new ≡ D.stands desk.old }
{
    let mut lists = Vec::new(alloc);
    load.swap_lists(&mut lists);
    let channels = Channels { lists };
    match desk.turn(FrameAct { ahead, channels }) {
        Outcome::Entered(framed) => {
            let mut lists = framed.channels.lists;
            load.swap_lists(&mut lists);
            let _ = load.replace_cut(framed.cut);
            Came::Entered
        }
        Outcome::NotNow(channels) => {
            let mut lists = channels.lists;
            load.swap_lists(&mut lists);
            Came::NotNow
        }
        Outcome::NoMemory(channels) => {
            let mut lists = channels.lists;
            load.swap_lists(&mut lists);
            Came::NoMemory
        }
    }
}

/// Sets the stop mark.
pub(crate) fn stop<D: Desk<Scene>>(desk: &mut D)
    ensures counted { HoldsCopies (D.told desk.old) → HoldsCopies (D.told desk.new) }
    ensures marks { Marks (D.number desk.old) (D.seen desk.old) (D.told desk.old) (D.seen desk.new) (D.told desk.new) }
    ensures number { D.number desk.new ≡ D.number desk.old }
    ensures stands { D.stands desk.new ≡ D.stands desk.old }
{
    desk.turn(StopAct)
}
