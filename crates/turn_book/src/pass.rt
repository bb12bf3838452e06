// A pass, and what it becomes in the course of a turn.
ghost use Rattle.std.specs.Prelude.{IsSome};
ghost use Rattle.turn_book.specs.Seated.{in_hand};

use crate::kept::Kept;
use crate::view::Place;
use std::marker::Model;

/// A right to take turns at a book. Contracts see it as a `PassView`.
///
/// End every pass by `Book::join` or `Book::close`. One that is dropped keeps its place among the
/// seats, so no other pass ever has the room that `Book::close` asks for.
#[derive(Drop)]
pub struct Pass<J: Kept> {
    pub(crate) seat: Place<J>,
    ghost labelled: { IsSome seat.me.0.label },
}

impl<J: Kept> Model for Pass<J> {
    ghost use Rattle.turn_book.specs.PassView.{PassView};

    ghost Value = { PassView J.Entry J.Label };

    ghost use Rattle.turn_book.specs.Seated.{shown, IsAtRest};

    ghost view = { λ p. shown p.seat.table_id p.seat.me.0 p.labelled };

    ghost invariant = { λ p. IsAtRest p.seat.me };
}

// A pass with a ticket.
pub(crate) struct Waiting<J: Kept> {
    pub(crate) seat: Place<J>,
    pub(crate) ticket: u64,
    ghost labelled: { IsSome seat.me.0.label },
}

impl<J: Kept> Model for Waiting<J> {
    ghost use Rattle.turn_book.specs.PassView.{PassView};

    ghost Value = { PassView J.Entry J.Label };

    ghost use Rattle.turn_book.specs.Seated.{shown, IsInLine};

    ghost view = { λ w. shown w.seat.table_id w.seat.me.0 w.labelled };

    ghost invariant = { λ w. IsInLine w.seat.me w.ticket };
}

// A pass whose turn it is, while the value lies in the table.
pub(crate) struct Holder<J: Kept> {
    pub(crate) seat: Place<J>,
    ghost labelled: { IsSome seat.me.0.label },
    ghost full: { IsSome (in_hand seat.me.1) },
}

impl<J: Kept> Model for Holder<J> {
    ghost use Rattle.turn_book.specs.PassView.{HolderView};

    ghost Value = { HolderView J J.Entry J.Label };

    ghost use Rattle.turn_book.specs.Seated.{shown, value_of, in_hand, HasTurn};

    ghost view = { λ h. record {
      pass = shown h.seat.table_id h.seat.me.0 h.labelled;
      state = value_of (in_hand h.seat.me.1) h.full;
    } };

    ghost invariant = { λ h. HasTurn h.seat.me (in_hand h.seat.me.1) };
}

/// The turn at a book, whose value is out. Contracts see it as the pass that took it, whose `seen`
/// is the history that was taken. It can't be dropped: end it by `Book::give` or
/// `Book::enter_and_give`.
pub struct Busy<J: Kept> {
    pub(crate) seat: Place<J>,
    ghost labelled: { IsSome seat.me.0.label },
}

impl<J: Kept> Model for Busy<J> {
    ghost use Rattle.std.specs.Prelude.{None};
    ghost use Rattle.turn_book.specs.PassView.{PassView};

    ghost Value = { PassView J.Entry J.Label };

    ghost use Rattle.turn_book.specs.Seated.{shown, HasTurn};

    ghost view = { λ b. shown b.seat.table_id b.seat.me.0 b.labelled };

    ghost invariant = { λ b. HasTurn b.seat.me None };
}
