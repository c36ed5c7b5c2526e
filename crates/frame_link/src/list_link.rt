//! A link on one thread, with both ends in one value.
ghost use Rattle.std.specs.Prelude.{◌≡◌, ◌≤◌, ◌++◌, [], length};
ghost use Rattle.std.specs.VecDeque.{deque_capacity};

use crate::ends::{SendEnd, TakeEnd};
use atomic_table::{Play, Seat, Table, TableRule};
use pf_io::NoMemory;
use std::alloc::Global;
use std::collections::{LinkedList, VecDeque};

// What was sent and what was taken, each oldest first. It is the view of the link's seat: no value
// of it is made, so no item that has left the link is stored.
#[derive(Drop)]
struct Lists<T> {
    sent: LinkedList<T>,
    taken: LinkedList<T>,
}

// The rule of the link's table: every word is allowed, and at first nothing was sent or taken.
struct AnyWord;

impl<T> TableRule<T, Lists<T>, ()> for AnyWord {
    ghost use Rattle.frame_link.specs.Lists.{empty_lists};

    ghost holds = { λ _ _. Unit {0} };

    ghost first = { λ _. empty_lists };
}

// The step of a push.
struct Sending;

impl<T> Play<T, Lists<T>> for Sending {
    ghost use Rattle.frame_link.specs.Lists.{Sends};

    ghost then = { Sends };
}

// The step of a pop.
struct Taking;

impl<T> Play<T, Lists<T>> for Taking {
    ghost use Rattle.frame_link.specs.Lists.{Takes};

    ghost then = { Takes };
}

// The one word of the table, which stays 0. Each push and each pop is one step on it.
const WORD: usize = 0;

/// Both ends of a link on one thread. It keeps only the items that are in it, in places made at
/// the start, and its answers are exact.
#[derive(Drop)]
pub struct ListLink<T> {
    items: VecDeque<T>,
    room: usize,
    table: Table<T, Lists<T>, (), AnyWord, Global>,
    seat: Seat<T, Lists<T>>,
    ghost seated: { (seat.table_id ≡ table.shared.table_id) × (table.shared.table_id.words ≡ 1) },
    pub ghost fits: { (length items.items ≤ room) × (room ≤ deque_capacity items) },
    pub ghost in_order: { seat.me.0.sent ≡ seat.me.0.taken ++ items.items },
}

impl<T: Drop> ListLink<T> {
    ghost use Rattle.std.specs.Prelude.{IfOk};
    ghost use Rattle.frame_link.specs.Ends.{list_sent, list_taken, list_room};

    /// A link with room for so many items, through which nothing went.
    pub fn new(alloc: Global, room: usize) -> Result<ListLink<T>, NoMemory>
        ensures lists { IfOk result (λ link. (list_sent link ≡ []) × (list_taken link ≡ [])) }
        ensures room { IfOk result (λ link. list_room link ≡ room) }
    {
        let items = VecDeque::with_capacity(alloc, room)?;
        let (table, seat) = Table::of_words(alloc, &[0], &())?;
        Ok(ListLink {
            items,
            room,
            table,
            seat,
        })
    }
}

impl<T> SendEnd<T> for ListLink<T> {
    ghost use Rattle.std.specs.Prelude.{Some};
    ghost use Rattle.frame_link.specs.Ends.{list_sent, list_taken, list_room, list_at};

    ghost sent = { list_sent };

    ghost send_at = { list_at };

    ghost room = { list_room };

    ghost told_taken = { λ link. Some (list_taken link) };

    fn push(&mut self, item: T) -> Result<(), T> {
        if self.items.len() >= self.room {
            return Err(item);
        }
        let table = &self.table.shared;
        table.compare_exchange_with::<Sending>(&mut self.seat, WORD, 0, 0, &item);
        self.items.push_back_reserved(item);
        Ok(())
    }
}

impl<T> TakeEnd<T> for ListLink<T> {
    ghost use Rattle.std.specs.Prelude.{Some};
    ghost use Rattle.frame_link.specs.Ends.{list_sent, list_taken, list_room, list_at};

    ghost taken = { list_taken };

    ghost take_at = { list_at };

    ghost take_room = { list_room };

    ghost told_sent = { λ link. Some (list_sent link) };

    fn pop(&mut self) -> Option<T> {
        let item = self.items.pop_front()?;
        let table = &self.table.shared;
        table.compare_exchange_with::<Taking>(&mut self.seat, WORD, 0, 0, &item);
        Some(item)
    }
}
