//! The graves of the nodes that edits delete, and the marks of the nodes that they name.
ghost use Rattle.std.specs.Prelude.{◌≡◌, ◌≤◌, ◌++◌, length, map};
ghost use Rattle.pf_model.specs.Copies.{grave_of, named_by, put_all};

use async_delete::Graves;
use pf_model::{Edit, Gone};
use update_lists::Dirty;

/// The last frame that may name a deleted node: the last one begun, and 0 where the node was made after that.
fn last_frame(gone: &Gone, frames: u32) -> u32
    ensures { result ≡ (grave_of frames gone.now).last }
{
    if gone.born <= frames { frames } else { 0 }
}

/// Buries deleted nodes in the order of their deletion. It takes no memory.
pub(crate) fn bury(graves: &mut Graves, gone: Vec<Gone>, frames: u32)
    requires { length gone.items ≤ graves.old.spare }
    ensures { graves.new.graves ≡ graves.old.graves ++ map (grave_of frames) gone.items }
{
    for remains in gone {
        let last = last_frame(&remains, frames);
        graves.bury(remains, last);
    }
}

/// Marks the ids that these edits name.
pub(crate) fn mark(dirty: &mut Dirty, edits: &[Edit])
    ensures { dirty.new ≡ put_all (map named_by edits.now) dirty.old }
{
    for e in edits {
        dirty.mark(e.named());
    }
}
