//! The commands of the two callers, and the replies to them.
ghost use Rattle.std.specs.Prelude.{◌≡◌};
ghost use Rattle.std.specs.List.{list_all};
ghost use Rattle.pf_model.specs.Fits.{fits};

use pf_model::{Edit, EditList, Fault, Serials, View};

/// Who makes a command: the application, or the database process.
#[derive(Clone, Copy, Debug, PartialEq, Eq)]
pub enum Caller {
    /// The application process.
    App,
    /// The database process (DBASE).
    Dbase,
}

/// A buffer's recorded edits, to be made in one step (pfMergeBuffer), and how many edits the buffer dropped.
#[derive(Debug, Drop)]
pub struct Merge {
    pub edits: EditList,
    pub dropped: u32,
}

/// Whether the numbers of all these edits are in the ranges of a play.
fn all_fit(edits: &[Edit]) -> bool
    ensures { result ≡ list_all fits edits.now }
{
    edits.iter().all(|e| e.fits())
}

/// A command.
#[derive(Debug, Drop)]
pub enum Command {
    /// An edit of the scene.
    Edit(Edit),
    /// All edits of a buffer, or none of them.
    Merge(Merge),
    /// Sets the view of a channel, counted from 0.
    View(u8, View),
    /// Retires this many frames, counted from the first one, and frees the nodes that only they name (pfSync).
    Sync(u32),
    /// Begins the frame in preparation (pfFrame).
    Frame,
}

impl Command {
    ghost use Rattle.pf_history.specs.Commands.{caller_of, command_fits, edit_count};

    /// Who makes such a command: the database process exactly the merges.
    pub fn caller(&self) -> Caller
        ensures { result ≡ caller_of self.now }
    {
        match self {
            Command::Merge(_) => Caller::Dbase,
            _ => Caller::App,
        }
    }

    /// Whether the numbers of the command's edits are in the ranges of a play.
    pub fn fits(&self) -> bool
        ensures { result ≡ command_fits self.now }
    {
        match self {
            Command::Edit(e) => e.fits(),
            Command::Merge(merge) => all_fit(merge.edits.as_slice()),
            _ => true,
        }
    }

    /// The number of the command's edits.
    pub fn edit_count(&self) -> usize
        ensures { result ≡ edit_count self.now }
    {
        match self {
            Command::Edit(_) => 1,
            Command::Merge(merge) => merge.edits.len(),
            _ => 0,
        }
    }
}

/// The reply to a command.
#[derive(Debug, Drop)]
pub enum Reply {
    /// It was done.
    Done,
    /// An edit was refused with this fault.
    Refused(Fault),
    /// A merge was refused, since its edit at this place, counted from 1, has this fault.
    RefusedAt(u32, Fault),
    /// A Sync freed the nodes of these serials, in the order of their deletion.
    Freed(Serials),
    /// The frame of this number, counted from 1, was begun.
    Began(u32),
}

/// An entry of a history: a command, who made it, and the reply.
#[derive(Debug, Drop)]
pub struct Entry {
    pub caller: Caller,
    pub command: Command,
    pub reply: Reply,
}
