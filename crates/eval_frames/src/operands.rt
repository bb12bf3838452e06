//! The last values of a frame, which are a step's operands.

ghost use Rattle.std.specs.Prelude.{◌≡◌, ◌≤◌, IfOk, OnOk, drop, length, reverse, take};

use clu_tree::Value;
use machine_rules::Stack;
use std::alloc::{AllocError, Global};

/// Takes so many values. The last one comes last.
pub fn take_last(
    alloc: Global,
    values: &mut Stack<Value>,
    count: usize,
) -> Result<Stack<Value>, AllocError>
    requires { count ≤ length values.old }
    ensures taken { IfOk result (λ taken. taken ≡ reverse (take count values.old)) }
    ensures left { OnOk result (values.new ≡ drop count values.old) }
{
    let mut taken = Stack::new(alloc);
    let mut left = count;
    while left > 0 {
        let Some(value) = values.pop() else {
            unreachable!();
        };
        taken.push(value)?;
        left -= 1;
    }
    Ok(taken)
}

/// The values in a vector, in order.
pub fn listed(alloc: Global, mut values: Stack<Value>) -> Result<Vec<Value>, AllocError>
    ensures { IfOk result (λ list. list.items ≡ values) }
{
    let mut list = Vec::new(alloc);
    while let Some(value) = values.pop() {
        list.push(value)?;
    }
    Ok(list)
}

/// The values of a vector, of which the first one comes first.
pub fn stacked(alloc: Global, mut list: Vec<Value>) -> Result<Stack<Value>, AllocError>
    ensures { IfOk result (λ values. values ≡ list.items) }
{
    let mut values = Stack::new(alloc);
    while let Some(value) = list.pop() {
        values.push(value)?;
    }
    Ok(values)
}
