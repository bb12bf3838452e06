ghost use Rattle.std.specs.Prelude.{◌≡◌, ℕ, IfOk, OnOk, OnErr};
ghost use Rattle.std.specs.Bool.{OnFalse, OnTrue};
ghost use Rattle.std.specs.FinMap as map;

use crate::row::{Arrival, Row};
use crate::table::Table;
use indexmap::IndexMap;
use packet_wire::Memory;
use std::alloc::Global;
use std::marker::Model;
use world_types::Bytes;

/// The calls that came to a server, by client.
#[derive(Drop)]
pub struct OnceServer {
    tables: IndexMap<u32, Table>,
}

impl Model for OnceServer {
    ghost use Rattle.std.specs.FinMap as map;
    ghost use Rattle.std.specs.Coded.{coded_ℕ};
    ghost use Rattle.rpc_exactly_once.specs.Server as kept;

    ghost Value = { kept.Server };

    ghost coded = { map.code coded_ℕ kept.table_code };

    ghost view = { λ s. map.from_entries s.tables.entries };

    ghost invariant = { λ s. kept.AreAboveFloors (map.from_entries s.tables.entries) };
}

impl OnceServer {
    ghost use Rattle.rpc_exactly_once.specs.Server.{arrival, is_running, raised, row_of, table_of, with_row, AreAboveFloors, IfBegin, IsPast, MayBegin, StaysPast};

    /// No client was heard from.
    pub fn new(alloc: Global) -> Result<OnceServer, Memory>
        ensures none { IfOk result (λ server. server ≡ map.empty) }
        ensures above { IfOk result AreAboveFloors }
    {
        Ok(OnceServer {
            tables: IndexMap::new(alloc),
        })
    }

    /// A client's call comes, with the client's floor. Rows below the greatest floor seen are dropped, and then the
    /// floor and the row of the call say what is to be done. For want of memory all is as before.
    pub fn arrive(
        &mut self,
        alloc: Global,
        client: u32,
        seq: u64,
        floor: u64,
    ) -> Result<Arrival, Memory>
        ensures answer { IfOk result (λ answer. answer ≡ arrival (raised (table_of self.old client) floor) seq) }
        ensures ok { OnOk result (self.new ≡ map.insert self.old client (raised (table_of self.old client) floor)) }
        ensures err { OnErr result (self.new ≡ self.old) }
        ensures above { AreAboveFloors self.new }
        // Where a body is to begin, it may.
        ensures begin { IfOk result (λ answer. IfBegin answer (MayBegin (table_of self.new client) seq)) }
        // A call that was begun isn't begun again.
        ensures once { IsPast (table_of self.old client) seq → IfOk result (λ answer. ¬ (answer ≡ Arrival.Begin)) }
        ensures past { StaysPast self.old self.new }
    {
        match self.tables.get_mut(&client) {
            Some(table) => table.arrive(alloc, seq, floor),
            None => {
                let mut table = Table::new(alloc);
                let answer = table.arrive(alloc, seq, floor)?;
                self.tables.insert(client, table)?;
                Ok(answer)
            }
        }
    }

    /// The body of a client's call begins. The call has no row, and isn't below the client's floor. For want of memory
    /// all is as before.
    pub fn begun(&mut self, alloc: Global, client: u32, seq: u64) -> Result<(), Memory>
        requires { MayBegin (table_of self.old client) seq }
        ensures ok { OnOk result
            (self.new ≡ map.insert self.old client (with_row (table_of self.old client) seq Row.Running)) }
        ensures err { OnErr result (self.new ≡ self.old) }
        ensures above { AreAboveFloors self.new }
        ensures begun { OnOk result (IsPast (table_of self.new client) seq) }
        ensures past { StaysPast self.old self.new }
    {
        match self.tables.get_mut(&client) {
            Some(table) => table.begun(seq),
            None => {
                let mut table = Table::new(alloc);
                table.begun(seq)?;
                self.tables.insert(client, table)?;
                Ok(())
            }
        }
    }

    /// The body of a client's call ended, and this is its reply. False exactly where the call isn't running, and then
    /// all is as before. For want of memory too.
    pub fn done(
        &mut self,
        alloc: Global,
        client: u32,
        seq: u64,
        reply: Bytes,
    ) -> Result<bool, Memory>
        ensures running { IfOk result (λ ended. ended ≡ is_running (row_of (table_of self.old client) seq)) }
        ensures ok { IfOk result (λ ended. OnTrue ended
            (self.new ≡ map.insert self.old client (with_row (table_of self.old client) seq (Row.Done reply)))) }
        ensures unchanged { IfOk result (λ ended. OnFalse ended (self.new ≡ self.old)) }
        ensures err { OnErr result (self.new ≡ self.old) }
        ensures above { AreAboveFloors self.new }
        ensures floors { (other : ℕ) → (table_of self.new other).floor ≡ (table_of self.old other).floor }
        ensures past { StaysPast self.old self.new }
    {
        let Some(table) = self.tables.get_mut(&client) else {
            return Ok(false);
        };
        table.done(seq, reply)
    }
}
