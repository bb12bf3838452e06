ghost use Rattle.std.specs.Prelude.{◌≡◌, IfOk};

use crate::text::Text;
use std::alloc::{AllocError, Global};

/// Where an object of a node's store stands, counted from 0.
#[derive(Clone, Copy, Debug, PartialEq, Eq)]
pub struct Addr(pub u32);

/// What a variable holds. Objects that can change are reached by their address.
#[derive(Debug, Drop)]
pub enum Value {
    Nil,
    Bool(bool),
    Int(i64),
    Char(u8),
    Str(Text),
    Ref(Addr),
}

/// An exception: its name, and the value that it carries, if any.
#[derive(Debug, Drop)]
pub struct Sig {
    pub name: Text,
    pub value: Option<Value>,
}

impl Value {
    /// An equal value.
    pub fn copy(&self, alloc: Global) -> Result<Value, AllocError>
        ensures { IfOk result (λ v. v ≡ self.now) }
    {
        Ok(match self {
            Value::Nil => Value::Nil,
            Value::Bool(b) => Value::Bool(*b),
            Value::Int(n) => Value::Int(*n),
            Value::Char(c) => Value::Char(*c),
            Value::Str(text) => Value::Str(text.copy(alloc)?),
            Value::Ref(addr) => Value::Ref(*addr),
        })
    }
}

impl Sig {
    /// An equal exception.
    pub fn copy(&self, alloc: Global) -> Result<Sig, AllocError>
        ensures { IfOk result (λ s. s ≡ self.now) }
    {
        let name = self.name.copy(alloc)?;
        let value = copy_carried(alloc, &self.value)?;
        Ok(Sig { name, value })
    }
}

fn copy_carried(alloc: Global, value: &Option<Value>) -> Result<Option<Value>, AllocError>
    ensures { IfOk result (λ v. v ≡ value.now) }
{
    match value {
        None => Ok(None),
        Some(value) => {
            let value = value.copy(alloc)?;
            Ok(Some(value))
        }
    }
}
