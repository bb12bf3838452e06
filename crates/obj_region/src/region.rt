ghost use Rattle.std.specs.Prelude.{◌≡◌, ◌++◌, ◌∷◌, [], ◌<◌, ◌≤◌, length, take, IfOk, OnOk, OnErr, IfErr, IsOk, Some, None};
ghost use Rattle.obj_region.specs.Answers.{region_seen};
ghost use Rattle.obj_region.specs.Store.{IsStore};

use crate::fault::{Memory, RegionFault};
use crate::object::Obj;
use crate::objects::{
    grow_high, grow_low, has_index, is_empty, item, lose_high, lose_low, may_grow_high,
    may_grow_low, may_lose_high, may_lose_low, set_field, set_item,
};
use crate::store::Store;
use clu_tree::{Addr, Value};
use std::alloc::Global;
use std::marker::Model;

/// The most objects that a store holds.
pub const MAX_OBJECTS: usize = 262_144;

/// The most elements and fields that a store's objects have in all.
pub const MAX_CELLS: usize = 1_048_576;

/// The objects of a node by address. Its bound is 0: each of them may change.
#[derive(Debug, Drop)]
pub struct Region {
    objects: Vec<Obj>,
    // How many elements and fields the objects have.
    total: usize,
}

impl Model for Region {
    ghost use Rattle.std.specs.Prelude.{◌≡◌};
    ghost use Rattle.obj_region.specs.Store.{Store, IsStore, cells};

    ghost Value = { Store };

    ghost view = { λ r. r.objects.items };

    ghost invariant = { λ r. (r.total ≡ cells r.objects.items) × IsStore r.objects.items };
}

impl Region {
    /// A region without objects.
    pub fn new(alloc: Global) -> Result<Region, Memory>
        ensures { IfOk result (λ region. region ≡ []) }
    {
        Ok(Region {
            objects: Vec::new(alloc),
            total: 0,
        })
    }

    // Takes out the objects from an address on.
    pub(crate) fn cut(&mut self, mark: u32)
        ensures { self.new ≡ take mark self.old }
    {
        while self.objects.len() > mark as usize {
            let obj = self.objects.pop().unwrap();
            self.total -= obj.cells();
        }
    }
}

impl Store for Region {
    ghost seen = { region_seen };

    fn add(&mut self, alloc: Global, obj: Obj) -> Result<Addr, RegionFault> {
        let more = obj.cells();
        if self.objects.len() == MAX_OBJECTS || MAX_CELLS - self.total < more {
            return Err(RegionFault::Full);
        }
        let at = Addr(self.objects.len() as u32);
        self.objects.push(obj).map_err(|_| RegionFault::Memory)?;
        self.total += more;
        Ok(at)
    }

    fn get(&self, at: Addr) -> Option<&Obj> {
        self.objects.get(at.0 as usize)
    }

    fn set_field(&mut self, at: Addr, field: u16, value: Value) -> Result<(), RegionFault> {
        set_field(&mut self.objects, at, field, value);
        Ok(())
    }

    fn fetch(&self, alloc: Global, at: Addr, place: i64) -> Result<Value, RegionFault> {
        if !has_index(&self.objects, at, place) {
            return Err(RegionFault::Bounds);
        }
        let item = item(&self.objects, at, place).copy(alloc)?;
        Ok(item)
    }

    fn store(&mut self, at: Addr, place: i64, value: Value) -> Result<(), RegionFault> {
        if !has_index(&self.objects, at, place) {
            return Err(RegionFault::Bounds);
        }
        set_item(&mut self.objects, at, place, value);
        Ok(())
    }

    fn add_high(&mut self, _alloc: Global, at: Addr, value: Value) -> Result<(), RegionFault> {
        if !may_grow_high(&self.objects, at) {
            return Err(RegionFault::Range);
        }
        if self.total == MAX_CELLS {
            return Err(RegionFault::Full);
        }
        grow_high(&mut self.objects, at, value)?;
        self.total += 1;
        Ok(())
    }

    fn add_low(&mut self, _alloc: Global, at: Addr, value: Value) -> Result<(), RegionFault> {
        if !may_grow_low(&self.objects, at) {
            return Err(RegionFault::Range);
        }
        if self.total == MAX_CELLS {
            return Err(RegionFault::Full);
        }
        grow_low(&mut self.objects, at, value)?;
        self.total += 1;
        Ok(())
    }

    fn rem_high(&mut self, at: Addr) -> Result<Value, RegionFault> {
        if is_empty(&self.objects, at) {
            return Err(RegionFault::Bounds);
        }
        if !may_lose_high(&self.objects, at) {
            return Err(RegionFault::Range);
        }
        self.total -= 1;
        Ok(lose_high(&mut self.objects, at))
    }

    fn rem_low(&mut self, at: Addr) -> Result<Value, RegionFault> {
        if is_empty(&self.objects, at) {
            return Err(RegionFault::Bounds);
        }
        if !may_lose_low(&self.objects, at) {
            return Err(RegionFault::Range);
        }
        self.total -= 1;
        Ok(lose_low(&mut self.objects, at))
    }

    fn mark(&self) -> u32 {
        self.objects.len() as u32
    }
}
