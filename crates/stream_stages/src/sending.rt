//! A frame whose pieces are sent.
ghost use Rattle.std.specs.Prelude.{◌≡◌, ℕ, ◌<◌, List, None, Some, IfSome, slice_get, slice_index_or};
ghost use Rattle.multibuffer.specs.StageCopies.{CopyState};
ghost use Rattle.stage_parts.specs.Loads.{LoadState};
ghost use Rattle.stream_stages.specs.PieceFrames.{PieceLists, with_piece};
ghost use Rattle.stream_stages.specs.CullParts.{first_four, IsCopyOf, SendsPieces};
ghost use Rattle.stream_stages.specs.CullSteps.{TakesUpdates, IsReadyToSend, FillsOne};

use crate::pieces::Piece;
use crate::streams::StreamWalk;
use fx_math::Lens;
use multibuffer::StageCopy;
use pf_model::{Steps, View};
use stage_parts::Load;
use std::marker::Brand;
use std::sync::ledger::{Blank, Ledger};
use update_lists::{Cut, Views};

/// The most channels that pieces are sent for.
const CHANNELS: usize = 4;

/// A frame whose pieces are sent: its number, the views of its first four channels, and the channel whose list is sent.
#[derive(Drop)]
pub(crate) struct Sending {
    pub(crate) time: u32,
    pub(crate) views: [Option<View>; 4],
    pub(crate) channel: usize,
}

/// Returns the view of a channel, or `None` if there is no such channel.
fn view_at(views: &Views, channel: usize) -> Option<View>
    ensures { result ≡ slice_get views.now channel }
{
    views.at(channel).copied()
}

impl Sending {
    /// The frame of a cut, of which nothing is sent.
    pub(crate) fn of(cut: &Cut) -> Sending
        ensures time { result.time ≡ cut.now.frame }
        ensures views { result.views ≡ first_four cut.now.views }
        ensures channel { result.channel ≡ 0 }
    {
        let views = &cut.views;
        Sending {
            time: cut.frame,
            views: [
                view_at(views, 0),
                view_at(views, 1),
                view_at(views, 2),
                view_at(views, 3),
            ],
            channel: 0,
        }
    }

    /// Returns the view of the channel whose list is sent, or `None` if no channel is left.
    fn view(&self) -> Option<View>
        ensures few { IfSome result (λ _. self.now.channel < 4) }
        ensures value { self.now.channel < 4 → result ≡ slice_index_or self.now.views self.now.channel None }
    {
        if self.channel >= CHANNELS {
            return None;
        }
        self.views[self.channel]
    }
}

/// Takes the update list of a load into the copy, and puts the previous nodes in its place.
pub(crate) fn take_updates(copy: &mut StageCopy, load: &mut Load)
    ensures { TakesUpdates copy.old copy.new load.old load.new }
{
    let stood = copy.take(load.take_updates());
    load.set_updates(stood);
}

/// Begins the list of the channel of a frame. Returns the frame, or `None` if no channel is left.
pub(crate) fn begin_channel(walk: &mut StreamWalk, lens: &Lens, frame: Sending) -> Option<Sending>
    ensures few { IfSome result (λ s. s.channel < 4) }
    ensures pieces { (limit : ℕ) → (copy : CopyState) → (loads : List LoadState) → (lists : PieceLists)
        → IsReadyToSend lens.now limit copy loads lists frame
        → SendsPieces lens.now limit copy result walk.new loads lists }
{
    match frame.view() {
        None => None,
        Some(view) => {
            walk.start(frame.time, &view, lens);
            Some(frame)
        }
    }
}

/// Fills a piece with what the walk sends next of the copy. Its steps are counted by a counter that nobody reads.
fn fill_counted<L: Ledger>(blank: Blank, copy: &StageCopy, walk: &mut StreamWalk, piece: &mut Piece)
    requires name { blank.name ≡ L.name }
    requires parts { blank.parts ≡ L.parts }
    requires some { 0 < L.parts }
    ensures { FillsOne copy.now walk.old walk.new piece.old piece.new }
{
    let mut steps = Steps::<L>::new(blank);
    walk.fill(copy, piece, &mut steps);
    // This call's clause says that the piece has no more items than it takes.
    let _ = piece.list();
}

/// Fills a piece with what is sent next of a frame, and goes on to the next channel behind the last piece of a list.
/// Returns the frame, or `None` if no channel is left.
pub(crate) fn fill_piece(
    copy: &StageCopy,
    walk: &mut StreamWalk,
    lens: &Lens,
    frame: Sending,
    piece: &mut Piece,
) -> Option<Sending>
    requires few { frame.channel < 4 }
    ensures few { IfSome result (λ s. s.channel < 4) }
    ensures limit { piece.new.limit ≡ piece.old.limit }
    ensures pieces { (loads : List LoadState) → (lists : PieceLists) → IsCopyOf copy.now loads
        → SendsPieces lens.now piece.old.limit copy.now (Some frame) walk.old loads lists
        → SendsPieces lens.now piece.old.limit copy.now result walk.new loads (with_piece lists piece.new) }
{
    fill_counted::<Brand>(Blank::new(1), copy, walk, piece);
    if !piece.is_last() {
        return Some(frame);
    }
    let mut frame = frame;
    frame.channel += 1;
    begin_channel(walk, lens, frame)
}
