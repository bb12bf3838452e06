//! The ends of operations.

ghost use Rattle.std.specs.Prelude.{◌≡◌, IfOk};
ghost use Rattle.clu_ops.specs.Ends.{truth as truth_end, number as number_end, character as character_end, text as text_end, signal as signal_end, failure as failure_end};

use crate::fault::Memory;
use crate::op_end::OpEnd;
use clu_tree::{Sig, Text, Value};
use std::alloc::Global;

pub(crate) fn truth(truth: bool) -> OpEnd
    ensures { result ≡ truth_end truth }
{
    OpEnd::Value(Value::Bool(truth))
}

pub(crate) fn number(number: i64) -> OpEnd
    ensures { result ≡ number_end number }
{
    OpEnd::Value(Value::Int(number))
}

pub(crate) fn character(code: u8) -> OpEnd
    ensures { result ≡ character_end code }
{
    OpEnd::Value(Value::Char(code))
}

/// A string of these bytes.
pub(crate) fn text(alloc: Global, bytes: &[u8]) -> Result<OpEnd, Memory>
    ensures { IfOk result (λ e. e ≡ text_end bytes.now) }
{
    let text = Text::from_slice(alloc, bytes)?;
    Ok(OpEnd::Value(Value::Str(text)))
}

/// An exception without a value.
pub(crate) fn signal(alloc: Global, name: &[u8]) -> Result<OpEnd, Memory>
    ensures { IfOk result (λ e. e ≡ signal_end name.now) }
{
    let name = Text::from_slice(alloc, name)?;
    Ok(OpEnd::Signal(Sig { name, value: None }))
}

/// The exception `failure` with its text.
pub(crate) fn failure(alloc: Global, why: &[u8]) -> Result<OpEnd, Memory>
    ensures { IfOk result (λ e. e ≡ failure_end why.now) }
{
    let name = Text::from_slice(alloc, b"failure")?;
    let why = Text::from_slice(alloc, why)?;
    Ok(OpEnd::Signal(Sig {
        name,
        value: Some(Value::Str(why)),
    }))
}
