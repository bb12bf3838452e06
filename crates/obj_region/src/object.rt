ghost use Rattle.std.specs.Prelude.{◌≡◌};

use crate::values::Values;
use clu_tree::Value;

/// An object of a store. Programs reach it by its address.
#[derive(Debug, Drop)]
pub enum Obj {
    /// An array: the index of its first element, and its elements. Its high is the index of the last one, or one
    /// less than `low` where there is none.
    Arr { low: i64, items: Values },
    /// A record: its fields in the order of its type.
    Rec { fields: Values },
    /// A oneof: the place of its tag in its type, from 0, and its value.
    One { tag: u16, value: Value },
    /// A lock.
    Lock,
    /// A semaphore.
    Sem,
}
