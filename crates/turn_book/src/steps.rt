// The steps on the table. A type for each kind of step says what it tells the seat that makes it.
ghost use Rattle.std.specs.Prelude.{◌≡◌, ◌≤◌, ◌∷◌, ◌++◌, [], IfOk, IfErr};
ghost use mathlib.Core.List.{IsPrefix};
ghost use Rattle.turn_book.specs.PassView.{with_entry};
ghost use Rattle.turn_book.specs.Seated.{IsAtRest};
ghost use Rattle.turn_book.specs.Steps.{rest_of, part_of, joined};

use crate::book::Book;
use crate::kept::Kept;
use crate::pass::{Busy, Holder, Pass, Waiting};
use crate::view::{COUNT, Place, SERVING, TICKET, VALUE, View};
use atomic_table::{Join, Play, Split};
use std::marker::PhantomData;

// A ticket is drawn.
pub(crate) struct Draw<J> {
    kept: PhantomData<J>,
}

impl<J: Kept> Play<Option<J>, View<J::Entry, J::Label>> for Draw<J> {
    ghost use Rattle.turn_book.specs.Steps.{drew};

    ghost then = { drew };
}

// The ticket that is served is looked at.
pub(crate) struct Look<J> {
    kept: PhantomData<J>,
}

impl<J: Kept> Play<Option<J>, View<J::Entry, J::Label>> for Look<J> {
    ghost use Rattle.turn_book.specs.Steps.{looked};

    ghost then = { looked J.history J.label };
}

// The history is one entry longer.
pub(crate) struct Enter<J> {
    kept: PhantomData<J>,
}

impl<J: Kept> Play<Option<J>, View<J::Entry, J::Label>> for Enter<J> {
    ghost use Rattle.turn_book.specs.Steps.{entered};

    ghost then = { entered J.history };
}

// The next ticket is served.
pub(crate) struct Leave<J> {
    kept: PhantomData<J>,
}

impl<J: Kept> Play<Option<J>, View<J::Entry, J::Label>> for Leave<J> {
    ghost use Rattle.turn_book.specs.Steps.{left};

    ghost then = { left };
}

// The new pass has the number of the split.
pub(crate) struct Cut;

impl<E, L> Split<View<E, L>> for Cut {
    ghost use Rattle.turn_book.specs.Steps.{rest_of, part_of};

    ghost left = { rest_of };

    ghost right = { part_of };
}

// The kept pass takes over the seat of the ended one, and what that one knows.
pub(crate) struct Glue;

impl<E, L> Join<View<E, L>> for Glue {
    ghost use Rattle.turn_book.specs.Steps.{joined, spent as spent_view};

    ghost both = { joined };

    ghost spent = { spent_view };
}

impl<J: Kept> Book<J> {
    // Draws the next ticket.
    pub(crate) fn draw(&self, pass: Pass<J>) -> Waiting<J>
        requires { pass.book ≡ self.now }
        ensures { result ≡ pass }
    {
        let Pass { mut seat } = pass;
        let ticket = self.table.shared.fetch_add::<Draw<J>>(&mut seat, TICKET, 1);
        Waiting { seat, ticket }
    }

    // Looks whether the ticket is served. If it is, the pass has seen the whole history.
    pub(crate) fn look(&self, waiting: Waiting<J>) -> Result<Holder<J>, Waiting<J>>
        requires { waiting.book ≡ self.now }
        ensures pass { IfOk result (λ h. h.pass ≡ record waiting { seen = J.history h.state }) }
        ensures grown { IfOk result (λ h. IsPrefix waiting.seen (J.history h.state)) }
        ensures label { IfOk result (λ h. J.label h.state ≡ waiting.label) }
        ensures not_yet { IfErr result (λ w. w ≡ waiting) }
    {
        let Waiting { mut seat, ticket } = waiting;
        let served = self.table.shared.load::<Look<J>>(&mut seat, SERVING);
        if served == ticket {
            Ok(Holder { seat })
        } else {
            Err(Waiting { seat, ticket })
        }
    }

    // Takes the value out of the table.
    pub(crate) fn lift(&self, holder: Holder<J>) -> (J, Busy<J>)
        requires { holder.pass.book ≡ self.now }
        ensures { (result.0 ≡ holder.state) × (result.1 ≡ holder.pass) }
    {
        let Holder { mut seat } = holder;
        let state = self.table.shared.exchange(&mut seat, VALUE, None).unwrap();
        (state, Busy { seat })
    }

    // Puts the value into the table.
    pub(crate) fn put(&self, state: J, busy: Busy<J>) -> Holder<J>
        requires { busy.book ≡ self.now }
        ensures { result ≡ record { pass = busy; state = state } }
    {
        let Busy { mut seat } = busy;
        drop(self.table.shared.exchange(&mut seat, VALUE, Some(state)));
        Holder { seat }
    }

    // Enters the one entry that the value has more than was seen.
    pub(crate) fn enter(&self, holder: &mut Holder<J>)
        requires book { holder.old.pass.book ≡ self.now }
        requires entry { (e : J.Entry)
            × (J.history holder.old.state ≡ holder.old.pass.seen ++ e ∷ []) }
        ensures { (e : J.Entry) → J.history holder.old.state ≡ holder.old.pass.seen ++ e ∷ []
            → holder.new ≡ record holder.old { pass = with_entry holder.old.pass e } }
    {
        let shared = &self.table.shared;
        shared.fetch_add::<Enter<J>>(&mut holder.seat, COUNT, 1);
    }

    // Lets the next ticket be served.
    pub(crate) fn leave(&self, holder: Holder<J>) -> Pass<J>
        requires book { holder.pass.book ≡ self.now }
        requires seen { J.history holder.state ≡ holder.pass.seen }
        requires label { J.label holder.state ≡ holder.pass.label }
        ensures { result ≡ holder.pass }
    {
        let Holder { mut seat } = holder;
        self.table
            .shared
            .fetch_add::<Leave<J>>(&mut seat, SERVING, 1);
        Pass { seat }
    }

    // Splits a seat from that of the first pass.
    pub(crate) fn cut(&self, seat: &mut Place<J>) -> Place<J>
        requires table { seat.old.table_id ≡ self.now }
        requires rest { IsAtRest seat.old.me }
        requires first { seat.old.me.0.number ≡ 0 }
        requires room { 1 ≤ seat.old.me.0.room }
        ensures table { (seat.new.table_id ≡ self.now) × (result.table_id ≡ self.now) }
        ensures first { seat.new.me ≡ (rest_of seat.old.me.0, []) }
        ensures new { result.me ≡ (part_of seat.old.me.0, []) }
    {
        self.table.shared.split_seat::<Cut>(seat)
    }

    // Joins a seat to that of the first pass.
    pub(crate) fn glue(&self, seat: &mut Place<J>, ended: Place<J>)
        requires table { (seat.old.table_id ≡ self.now) × (ended.table_id ≡ self.now) }
        requires rest { IsAtRest seat.old.me × IsAtRest ended.me }
        requires first { seat.old.me.0.number ≡ 0 }
        ensures table { seat.new.table_id ≡ self.now }
        ensures both { seat.new.me ≡ (joined seat.old.me.0 ended.me.0, []) }
    {
        self.table.shared.join_seat::<Glue>(seat, ended);
    }
}
