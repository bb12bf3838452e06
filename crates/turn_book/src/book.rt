// The book.
ghost use Rattle.std.specs.Prelude.{◌≡◌, ◌+◌, ◌-◌, ◌≤◌, ◌∷◌, ◌++◌, [], Some, IfOk};
ghost use mathlib.Core.List.{IsPrefix};
ghost use Rattle.turn_book.specs.History.{IsMadeOf, longer};
ghost use Rattle.turn_book.specs.PassView.{first_pass, with_entry};

use crate::kept::Kept;
use crate::pass::{Busy, Pass};
use crate::view::{Board, Opening, VALUE};
use atomic_table::Table;
use std::alloc::Global;
use std::marker::Model;
use std::snapshot::Snapshot;
use std::sync::Wait;
use std::thread;
use thiserror::Error;

/// There was no memory.
#[derive(Debug, Drop, Error)]
#[error("out of memory")]
pub struct Memory;

/// A value that passes use in turn. Contracts see a book as what tells it from every other book.
#[derive(Drop)]
pub struct Book<J: Kept> {
    pub(crate) table: Board<J>,
}

impl<J: Kept> Model for Book<J> {
    ghost use Rattle.std.specs.Prelude.{◌≡◌};
    ghost use Rattle.atomic_table.specs.Seated.{TableId, table_id_coded};

    ghost Value = { TableId };

    ghost coded = { table_id_coded };

    ghost view = { λ b. b.table.shared.table_id };

    ghost invariant = { λ b.
        (b.table.shared.table_id.words ≡ 3) × (b.table.shared.table_id.slots ≡ 1) };
}

// The one value that the table has.
fn only<J: Drop>(alloc: Global, first: J) -> Result<Vec<Option<J>>, Memory>
    ensures { IfOk result (λ v. v.items ≡ Some first ∷ []) }
{
    let mut slots = Vec::new(alloc);
    if slots.push(Some(first)).is_err() {
        return Err(Memory);
    }
    Ok(slots)
}

impl<J: Kept> Book<J> {
    /// A book of the value, whose history is empty, and its first pass. There are at most `seats`
    /// passes at one time. After `Memory` the value has been dropped.
    pub fn begin(alloc: Global, first: J, seats: u32) -> Result<(Book<J>, Pass<J>), Memory>
        requires seats { 1 ≤ seats }
        requires empty { J.history first ≡ [] }
        ensures { IfOk result (λ b. b.1 ≡ first_pass b.0 (J.label first) seats) }
    {
        let about = Opening {
            first: Snapshot::of(&first),
            seats,
        };
        let slots = only(alloc, first)?;
        match Table::new(alloc, &[0, 0, 0], slots, &about) {
            Ok((table, seat)) => Ok((Book { table }, Pass { seat })),
            Err(_) => Err(Memory),
        }
    }

    /// A new pass, which the first pass has room for. The k-th split gives the number k.
    pub fn split(&self, pass: &mut Pass<J>) -> Pass<J>
        requires book { pass.old.book ≡ self.now }
        requires first { pass.old.number ≡ 0 }
        requires room { 1 ≤ pass.old.room }
        ensures first { pass.new ≡ record pass.old {
          room = pass.old.room - 1;
          splits = pass.old.splits + 1;
        } }
        ensures new { result ≡ record pass.old {
          number = pass.old.splits + 1;
          mine = [];
          ended = [];
          room = 0;
          splits = 0;
        } }
    {
        let seat = self.cut(&mut pass.seat);
        Pass { seat }
    }

    /// Waits for the turn, and hands the value out. Its history begins with all that the pass had
    /// seen.
    pub fn take<R: Wait>(&self, rt: &R, pass: Pass<J>) -> (J, Busy<J>)
        requires { pass.book ≡ self.now }
        ensures grown { IsPrefix pass.seen (J.history result.0) }
        ensures label { J.label result.0 ≡ pass.label }
        ensures busy { result.1 ≡ record pass { seen = J.history result.0 } }
    {
        let mut waiting = self.draw(pass);
        for _ in rt.forever() {
            match self.look(waiting) {
                Ok(holder) => return self.lift(holder),
                Err(still) => waiting = still,
            }
            thread::yield_now();
        }
        unreachable!()
    }

    /// Takes the value back with the history that it was taken with, and ends the turn.
    pub fn give(&self, state: J, busy: Busy<J>) -> Pass<J>
        requires book { busy.book ≡ self.now }
        requires history { J.history state ≡ busy.seen }
        requires label { J.label state ≡ busy.label }
        ensures { result ≡ busy }
    {
        let holder = self.put(state, busy);
        self.leave(holder)
    }

    /// Takes the value back with one entry more, which the pass has then made, and ends the turn.
    pub fn enter_and_give(&self, state: J, busy: Busy<J>) -> Pass<J>
        requires book { busy.book ≡ self.now }
        requires history { (e : J.Entry) × (J.history state ≡ busy.seen ++ e ∷ []) }
        requires label { J.label state ≡ busy.label }
        ensures { (e : J.Entry) → J.history state ≡ busy.seen ++ e ∷ []
            → result ≡ with_entry busy e }
    {
        let mut holder = self.put(state, busy);
        self.enter(&mut holder);
        self.leave(holder)
    }

    /// The first pass, once another was joined to it. It has room for one more pass, has seen what
    /// either had, and keeps the number and the entries of the ended one.
    pub fn join(&self, kept: Pass<J>, ended: Pass<J>) -> Pass<J>
        requires kept { kept.book ≡ self.now }
        requires ended { ended.book ≡ self.now }
        requires first { kept.number ≡ 0 }
        ensures { result ≡ record kept {
          seen = longer kept.seen ended.seen;
          room = kept.room + 1;
          ended = kept.ended ++ (ended.number, ended.mine) ∷ [];
        } }
    {
        let Pass { mut seat } = kept;
        let Pass { seat: other } = ended;
        self.glue(&mut seat, other);
        Pass { seat }
    }

    /// Ends the book by the pass that every other was joined to, and gives the value back.
    pub fn close(self, pass: Pass<J>) -> J
        requires book { pass.book ≡ self }
        requires all { pass.room ≡ pass.seats - 1 }
        ensures history { IsMadeOf (J.history result) ((pass.number, pass.mine) ∷ pass.ended) }
        ensures label { J.label result ≡ pass.label }
    {
        let Book { table } = self;
        let Pass { seat } = pass;
        let mut closed = table.close_with(seat);
        let state = closed.take(VALUE).unwrap();
        closed.free();
        state
    }
}
