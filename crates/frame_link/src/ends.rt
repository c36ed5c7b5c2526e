//! What the two ends of a link do, whatever the link is made of.
ghost use Rattle.std.specs.Prelude.{◌≡◌, ℕ, ◌+◌, ◌<◌, ◌≤◌, List, [], ◌∷◌, ◌++◌, length, Option, IsOk, OnOk, OnErr, IfErr, IfSome, IfNone};
ghost use mathlib.Core.List.{IsPrefix};
ghost use Rattle.frame_link.specs.Link.{Link};

/// The end of a link that sends.
pub trait SendEnd<T> {
    // Every item pushed so far, oldest first.
    ghost sent: { Self → List T };

    // The link that the end belongs to.
    ghost send_at: { Self → Link };

    // How many items the link has room for.
    ghost room: { Self → ℕ };

    // Every item that the other end has popped, where this end can tell.
    ghost told_taken: { Self → Option (List T) };

    /// Sends the item, or hands it back where the link had no room. It takes no memory.
    fn push(&mut self, item: T) -> Result<(), T>
        ensures ok { OnOk result (sent self.new ≡ sent self.old ++ item ∷ []) }
        ensures err { IfErr result (λ back. (back ≡ item) × (sent self.new ≡ sent self.old)) }

        // It is refused only at a full link, and sent only where there was room.
        ensures full { OnErr result (IfSome (told_taken self.old) (λ taken. length taken + room self.old ≤ length (sent self.old))) }
        ensures fits { OnOk result (IfSome (told_taken self.old) (λ taken. length (sent self.old) < length taken + room self.old)) }
        ensures spare { length (sent self.old) < room self.old → IsOk result }

        // Nothing else changes.
        ensures link { send_at self.new ≡ send_at self.old }
        ensures room { room self.new ≡ room self.old }
        ensures other_end { told_taken self.new ≡ told_taken self.old };
}

/// The end of a link that takes.
pub trait TakeEnd<T> {
    // Every item popped so far, oldest first.
    ghost taken: { Self → List T };

    // The link that the end belongs to.
    ghost take_at: { Self → Link };

    // How many items the link has room for.
    ghost take_room: { Self → ℕ };

    // Every item that the other end has pushed, where this end can tell.
    ghost told_sent: { Self → Option (List T) };

    /// Takes the oldest item that is in the link, where there is one. It takes no memory.
    fn pop(&mut self) -> Option<T>
        ensures some { IfSome result (λ item. taken self.new ≡ taken self.old ++ item ∷ []) }
        ensures none { IfNone result (taken self.new ≡ taken self.old) }

        // It is `None` only where all that was sent is taken, and else the next item that was sent.
        ensures empty { IfNone result (IfSome (told_sent self.old) (λ sent. sent ≡ taken self.old)) }
        ensures next { IfSome (told_sent self.old) (λ sent. IsPrefix (taken self.new) sent) }

        // Nothing else changes.
        ensures link { take_at self.new ≡ take_at self.old }
        ensures room { take_room self.new ≡ take_room self.old }
        ensures other_end { told_sent self.new ≡ told_sent self.old };
}
