//! The kinds of step on a lock's table, and what each tells the seat that makes it.
ghost use Rattle.std.specs.Prelude.{◌++◌, false};
ghost use Rattle.turn_lock.specs.declared.view.Stage.TheVariants.{Idle};
ghost use Rattle.turn_lock.specs.Views.{without_first, only_first, view, spent};
ghost use Rattle.turn_lock.specs.Steps.{ticket_drawn, turn_loaded, next_served};

use crate::Logged;
use crate::view::View;
use atomic_table::{Join, Play, Split};
use std::marker::PhantomData;

/// One is added to the next ticket. The old value is the seat's ticket.
pub(crate) struct Draw;

impl<T: Logged> Play<Option<T>, View<T::Entry>> for Draw {
    ghost then = { ticket_drawn T.log T.fixed T.maker };
}

/// The ticket that is served is loaded. Where it is the seat's, the seat's turn has come.
pub(crate) struct LoadTurn;

impl<T: Logged> Play<Option<T>, View<T::Entry>> for LoadTurn {
    ghost then = { turn_loaded T.log T.fixed T.maker };
}

/// One is added to the ticket that is served. The seat's turn is over.
pub(crate) struct ServeNext;

impl<T: Logged> Play<Option<T>, View<T::Entry>> for ServeNext {
    ghost then = { next_served T.log T.fixed T.maker };
}

/// The first number goes to a new seat.
pub(crate) struct SplitOff;

impl<E> Split<View<E>> for SplitOff {
    ghost left = { λ v. view (without_first v.marks) v.stage false };

    ghost right = { λ v. view (only_first v.marks) Idle false };
}

/// One seat takes over the other's numbers, which come before its own.
pub(crate) struct Gather;

impl<E> Join<View<E>> for Gather {
    ghost both = { λ v w. view (w.marks ++ v.marks) Idle false };

    ghost spent = { spent };
}
