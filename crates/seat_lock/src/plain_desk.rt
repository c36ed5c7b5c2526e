//! A desk on one thread, which holds the value itself.
ghost use Rattle.std.specs.Prelude.{◌≡◌, Some, None, [], ◌∷◌};

use crate::traits::{Act, Desk, Glance, Logged};
use std::marker::Model;

/// A value whose turns are taken on one thread, under the seat number 0. Contracts see it as the value.
#[derive(Drop)]
pub struct PlainDesk<T> {
    value: T,
}

impl<T> Model for PlainDesk<T> {
    ghost Value = { T };

    ghost view = { λ d. d.value };
}

impl<T> PlainDesk<T> {
    /// A desk over the value.
    pub fn new(value: T) -> PlainDesk<T>
        ensures { result ≡ value }
    {
        PlainDesk { value }
    }

    /// A look at the value, as the turns left it.
    pub fn value(&self) -> &T
        ensures { result.now ≡ self.now }
    {
        &self.value
    }

    /// The value, as the turns left it.
    pub fn into_value(self) -> T
        ensures { result ≡ self }
    {
        self.value
    }
}

impl<T: Logged> Desk<T> for PlainDesk<T> {
    ghost use Rattle.seat_lock.specs.Desk.{alone};

    ghost number = { λ d. 0 };

    ghost seen = { λ d. T.log d };

    ghost stands = { λ d. alone };

    ghost told = { λ d. Some d };

    fn turn<A: Act<T>>(&mut self, act: A) -> A::Reply {
        act.act(&mut self.value, 0)
    }

    fn look<G: Glance<T>>(&mut self, glance: G) -> G::Out {
        glance.glance(&self.value)
    }
}
