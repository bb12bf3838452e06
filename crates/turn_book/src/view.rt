// What a seat of the table knows, and the rule of the table.
use crate::kept::Kept;
use atomic_table::{Seat, Table, TableRule};
use std::alloc::Global;
use std::collections::LinkedList;
use std::marker::PhantomData;
use std::snapshot::Snapshot;

// Where a seat stands. A ticket is counted without an end here, and modulo 2^64 in the words.
pub(crate) enum Stage {
    Spent,
    Idle,
    Waits(u64),
    OnTurn(u64),
}

// What a seat knows. No value of it is made.
pub(crate) struct View<E, L> {
    pub(crate) stage: Stage,
    pub(crate) number: u64,
    pub(crate) seen: LinkedList<E>,
    pub(crate) mine: LinkedList<E>,
    pub(crate) ended: LinkedList<(u64, LinkedList<E>)>,
    pub(crate) room: u64,
    pub(crate) splits: u64,
    pub(crate) seats: u64,
    pub(crate) label: Option<L>,
}

// What the table is told when it is made.
#[derive(Drop)]
pub(crate) struct Opening<J> {
    pub(crate) first: Snapshot<J>,
    pub(crate) seats: u32,
}

// The words: the length of the history, the tickets drawn, and the ticket that is served.
pub(crate) const COUNT: usize = 0;

pub(crate) const TICKET: usize = 1;

pub(crate) const SERVING: usize = 2;

// The slot that has the value.
pub(crate) const VALUE: usize = 0;

// The rule of the table.
pub(crate) struct InTurn<J> {
    kept: PhantomData<J>,
}

impl<J: Kept> TableRule<Option<J>, View<J::Entry, J::Label>, Opening<J>> for InTurn<J> {
    ghost use Rattle.turn_book.specs.Rule.{BookRule, first_view};

    ghost holds = { λ key. BookRule J.history J.label (J.label key.first.value) key.seats };

    ghost first = { λ key. first_view (J.label key.first.value) key.seats };
}

pub(crate) type Place<J> = Seat<Option<J>, View<<J as Kept>::Entry, <J as Kept>::Label>>;

pub(crate) type Board<J> = Table<
    Option<J>,
    View<<J as Kept>::Entry, <J as Kept>::Label>,
    Opening<J>,
    InTurn<J>,
    Global,
>;
