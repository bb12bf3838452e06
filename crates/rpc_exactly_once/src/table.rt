ghost use Rattle.std.specs.Prelude.{◌≡◌, ◌≤◌, None, IfOk, OnOk, OnErr, nat_le};
ghost use Rattle.std.specs.Bool.{OnFalse, OnTrue};
ghost use Rattle.rpc_exactly_once.specs.Server.{arrival, is_running, raised, row_of, unheard, with_row, NoneBelow};

use crate::row::{Arrival, Row};
use indexmap::IndexMap;
use packet_wire::Memory;
use std::alloc::Global;
use std::marker::Model;
use world_types::Bytes;

/// What a server keeps of one client: the greatest floor seen, or 0, and the rows of its calls by number.
#[derive(Drop)]
pub(crate) struct Table {
    floor: u64,
    rows: IndexMap<u64, Row>,
}

impl Model for Table {
    ghost use Rattle.rpc_exactly_once.specs.Server as kept;
    ghost use Rattle.std.specs.FinMap as map;

    ghost Value = { kept.Table };

    ghost coded = { kept.table_code };

    ghost view = { λ t. record { floor = t.floor; rows = map.from_entries t.rows.entries } };

    ghost invariant = { λ t. kept.NoneBelow (record { floor = t.floor; rows = map.from_entries t.rows.entries }) };
}

impl Table {
    // Of a client that was never heard from.
    pub(crate) fn new(alloc: Global) -> Table
        ensures unheard { result ≡ unheard }
        ensures above { NoneBelow result }
    {
        Table {
            floor: 0,
            rows: IndexMap::new(alloc),
        }
    }

    // A call comes with a floor.
    pub(crate) fn arrive(&mut self, alloc: Global, seq: u64, floor: u64) -> Result<Arrival, Memory>
        ensures answer { IfOk result (λ answer. answer ≡ arrival (raised self.old floor) seq) }
        ensures ok { OnOk result (self.new ≡ raised self.old floor) }
        ensures err { OnErr result (self.new ≡ self.old) }
        ensures above { NoneBelow self.new }
    {
        let answer = self.answer(alloc, seq, floor)?;
        self.raise(floor);
        Ok(answer)
    }

    // The body of a call begins.
    pub(crate) fn begun(&mut self, seq: u64) -> Result<(), Memory>
        requires absent { row_of self.old seq ≡ None }
        requires not_below { self.old.floor ≤ seq }
        ensures ok { OnOk result (self.new ≡ with_row self.old seq Row.Running) }
        ensures err { OnErr result (self.new ≡ self.old) }
        ensures above { NoneBelow self.new }
    {
        self.rows.insert(seq, Row::Running)?;
        Ok(())
    }

    // The body of a call ended. False where it isn't running.
    pub(crate) fn done(&mut self, seq: u64, reply: Bytes) -> Result<bool, Memory>
        ensures running { IfOk result (λ ended. ended ≡ is_running (row_of self.old seq)) }
        ensures ok { IfOk result (λ ended. OnTrue ended (self.new ≡ with_row self.old seq (Row.Done reply))) }
        ensures unchanged { IfOk result (λ ended. OnFalse ended (self.new ≡ self.old)) }
        ensures err { OnErr result (self.new ≡ self.old) }
        ensures above { NoneBelow self.new }
    {
        if !self.is_running(seq) {
            return Ok(false);
        }
        self.rows.insert(seq, Row::Done(reply))?;
        Ok(true)
    }

    fn is_running(&self, seq: u64) -> bool
        ensures running { result ≡ is_running (row_of self.now seq) }
        ensures above { NoneBelow self.now }
    {
        match self.rows.get(&seq) {
            None => false,
            Some(Row::Running) => true,
            Some(Row::Done(_)) => false,
        }
    }

    // What is done with a call that comes with this floor.
    fn answer(&self, alloc: Global, seq: u64, floor: u64) -> Result<Arrival, Memory>
        ensures answer { IfOk result (λ answer. answer ≡ arrival (raised self.now floor) seq) }
        ensures above { NoneBelow self.now }
    {
        if seq < floor || seq < self.floor {
            return Ok(Arrival::Nothing);
        }
        match self.rows.get(&seq) {
            None => Ok(Arrival::Begin),
            Some(Row::Running) => Ok(Arrival::Nothing),
            Some(Row::Done(reply)) => Ok(Arrival::Resend(reply.copy(alloc)?)),
        }
    }

    // A floor is seen. Only a greater one drops rows.
    fn raise(&mut self, floor: u64)
        ensures raised { self.new ≡ raised self.old floor }
        ensures above { NoneBelow self.new }
    {
        if self.floor < floor {
            self.floor = floor;
            self.rows.retain(
                |seq: &u64, _row: &mut Row| -> bool
                    ensures { (result ≡ nat_le floor seq.now) × (_row.new ≡ _row.old) }
                { floor <= *seq },
            );
        }
    }
}
