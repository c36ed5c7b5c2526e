//! The rule of the table of claims, and what each step at it tells.
ghost use Rattle.std.specs.Prelude.{ℕ, List, []};
ghost use Rattle.self_scheduling.specs.Views.{opener, hiring, hired, back_with, gone};
ghost use Rattle.self_scheduling.specs.Claims.{AreClaimed};
ghost use Rattle.self_scheduling.specs.Steps.{Claims, GivesBack};

use crate::view::View;
use atomic_table::{Join, Play, Split, TableRule};
use std::marker::{Brand, PhantomData};

/// The list as it was, and what may become of an item: of the place, the item and what is left of it.
pub trait Told<T> {
    ghost items: { List T };

    ghost leaves: { ℕ → T → T → Type 0 };
}

impl<T> Told<T> for Brand {
    ghost items = { [] };

    ghost leaves = { λ _ _ _. Unit {0} };
}

/// The rule. Its key is the number of threads.
pub(crate) struct Rule<B>(PhantomData<B>);

impl<T, B: Told<T>> TableRule<T, View, u64> for Rule<B> {
    ghost holds = { λ threads. AreClaimed B.items B.leaves threads };

    ghost first = { opener };
}

/// An item is claimed, where it was not.
pub(crate) struct Claim<B>(PhantomData<B>);

impl<T, B: Told<T>> Play<T, View> for Claim<B> {
    ghost then = { Claims B.items };
}

/// A claimed item is given back.
pub(crate) struct GiveBack;

impl<T> Play<T, View> for GiveBack {
    ghost then = { GivesBack };
}

/// A new seat answers for one of the threads.
pub(crate) struct Hire;

impl Split<View> for Hire {
    ghost left = { hiring };

    ghost right = { λ _. hired };
}

/// The seat of a thread that has ended comes back.
pub(crate) struct Return;

impl Join<View> for Return {
    ghost both = { back_with };

    ghost spent = { gone };
}
