ghost use Rattle.std.specs.Prelude.{◌≡◌, ◌==◌, ◌<◌, ◌-◌, [], ◌∷◌, ◌++◌, length, take, drop, OnOk, OnErr, IfNone, slice_get, slice_set};
ghost use Rattle.std.specs.Option.{option_copied};
ghost use Rattle.obj_region.specs.Store.{last_of};

use clu_tree::Value;
use std::alloc::{AllocError, Global};
use std::collections::VecDeque;
use std::marker::Model;

/// A list of values. It grows and shrinks at both ends in constant time, but for growths that move it, which are as
/// rare as in a `Vec`.
#[derive(Debug, Drop)]
pub struct Values {
    items: VecDeque<Value>,
}

impl Model for Values {
    ghost use Rattle.std.specs.Prelude.{List};
    ghost use Rattle.clu_tree.specs.declared.value.Value.{Value as Item};

    ghost Value = { List Item };

    ghost view = { λ v. v.items.items };
}

impl Values {
    /// The list of these values. Takes no memory.
    pub fn from_vec(values: Vec<Value>) -> Values
        ensures { result ≡ values.items }
    {
        Values {
            items: VecDeque::from_vec(values),
        }
    }

    /// The values, given back without memory.
    pub fn into_vec(self) -> Vec<Value>
        ensures { result.items ≡ self }
    {
        let Values { items } = self;
        items.into_vec()
    }

    /// How many values there are.
    pub fn len(&self) -> usize
        ensures { result ≡ length self.now }
    {
        self.items.len()
    }

    /// Whether there is no value.
    pub fn is_empty(&self) -> bool
        ensures { result ≡ (length self.now == 0) }
    {
        self.items.is_empty()
    }

    /// The value at a place, counted from 0. None where there is none.
    pub fn get(&self, place: usize) -> Option<&Value>
        ensures { option_copied result ≡ slice_get self.now place }
    {
        self.items.get(place)
    }

    // Puts a value in a place, counted from 0, for the one there.
    pub(crate) fn set(&mut self, place: usize, value: Value)
        requires { place < length self.old }
        ensures { self.new ≡ slice_set self.old place value }
    {
        self.items[place] = value;
    }

    // Adds a value behind the last.
    pub(crate) fn push_back(&mut self, value: Value) -> Result<(), AllocError>
        ensures ok { OnOk result (self.new ≡ self.old ++ value ∷ []) }
        ensures err { OnErr result (self.new ≡ self.old) }
    {
        self.items.push_back(value)?;
        Ok(())
    }

    // Adds a value before the first.
    pub(crate) fn push_front(&mut self, value: Value) -> Result<(), AllocError>
        ensures ok { OnOk result (self.new ≡ value ∷ self.old) }
        ensures err { OnErr result (self.new ≡ self.old) }
    {
        self.items.push_front(value)?;
        Ok(())
    }

    // Takes out the last value. None where there is none.
    pub(crate) fn pop_back(&mut self) -> Option<Value>
        ensures value { result ≡ last_of self.old }
        ensures rest { self.new ≡ take (length self.old - 1) self.old }
    {
        self.items.pop_back()
    }

    // Takes out the first value. None where there is none.
    pub(crate) fn pop_front(&mut self) -> Option<Value>
        ensures value { result ≡ slice_get self.old 0 }
        ensures rest { self.new ≡ drop 1 self.old }
    {
        self.items.pop_front()
    }
}
