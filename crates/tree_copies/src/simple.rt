//! Copies of the statements that have no statements in them.

ghost use Rattle.std.specs.Prelude.{◌≡◌, IfOk};

use crate::expr::{copy_expr, copy_expr_if_any, copy_exprs, copy_remote, copy_target};
use crate::shape::copy_shape;
use crate::text::copy_text_if_any;
use clu_tree::{Expr, Meant, Remote, Shape, Stmt, Target, Text};
use owned_parts::beside;
use std::alloc::{AllocError, Global};

pub(crate) fn copy_declare(
    alloc: Global,
    name: &Text,
    shape: &Shape,
    first: &Option<Expr>,
    line: u32,
) -> Result<Stmt, AllocError>
    ensures { IfOk result (λ s. s ≡ Stmt.Declare name.now shape.now first.now line) }
{
    let name = name.copy(alloc)?;
    let declared = beside(name, copy_shape(alloc, shape))?;
    let ((name, shape), first) = beside(declared, copy_expr_if_any(alloc, first))?;
    Ok(Stmt::Declare(name, shape, first, line))
}

pub(crate) fn copy_assign(
    alloc: Global,
    target: &Target,
    value: &Expr,
    line: u32,
) -> Result<Stmt, AllocError>
    ensures { IfOk result (λ s. s ≡ Stmt.Assign target.now value.now line) }
{
    let target = copy_target(alloc, target)?;
    let (target, value) = beside(target, copy_expr(alloc, value))?;
    Ok(Stmt::Assign(target, value, line))
}

pub(crate) fn copy_remote_stmt(
    alloc: Global,
    receiver: &Option<Text>,
    remote: &Remote,
    line: u32,
    meant: Meant,
) -> Result<Stmt, AllocError>
    ensures { IfOk result (λ s. s ≡ Stmt.Remote receiver.now remote.now line meant) }
{
    let receiver = copy_text_if_any(alloc, receiver)?;
    let (receiver, remote) = beside(receiver, copy_remote(alloc, remote))?;
    Ok(Stmt::Remote(receiver, remote, line, meant))
}

pub(crate) fn copy_call(alloc: Global, call: &Expr, line: u32) -> Result<Stmt, AllocError>
    ensures { IfOk result (λ s. s ≡ Stmt.Call call.now line) }
{
    match copy_expr(alloc, call) {
        Ok(call) => Ok(Stmt::Call(call, line)),
        Err(e) => Err(e),
    }
}

pub(crate) fn copy_put_line(alloc: Global, text: &Expr, line: u32) -> Result<Stmt, AllocError>
    ensures { IfOk result (λ s. s ≡ Stmt.PutLine text.now line) }
{
    match copy_expr(alloc, text) {
        Ok(text) => Ok(Stmt::PutLine(text, line)),
        Err(e) => Err(e),
    }
}

pub(crate) fn copy_sleep(alloc: Global, time: &Expr, line: u32) -> Result<Stmt, AllocError>
    ensures { IfOk result (λ s. s ≡ Stmt.Sleep time.now line) }
{
    match copy_expr(alloc, time) {
        Ok(time) => Ok(Stmt::Sleep(time, line)),
        Err(e) => Err(e),
    }
}

pub(crate) fn copy_fork(
    alloc: Global,
    name: &Text,
    args: &[Expr],
    line: u32,
    meant: Meant,
) -> Result<Stmt, AllocError>
    ensures { IfOk result (λ s. s ≡ Stmt.Fork name.now args.now line meant) }
{
    let name = name.copy(alloc)?;
    let (name, args) = beside(name, copy_exprs(alloc, args))?;
    Ok(Stmt::Fork(name, args, line, meant))
}

pub(crate) fn copy_return(
    alloc: Global,
    value: &Option<Expr>,
    line: u32,
) -> Result<Stmt, AllocError>
    ensures { IfOk result (λ s. s ≡ Stmt.Return value.now line) }
{
    match copy_expr_if_any(alloc, value) {
        Ok(value) => Ok(Stmt::Return(value, line)),
        Err(e) => Err(e),
    }
}

pub(crate) fn copy_signal(
    alloc: Global,
    name: &Text,
    value: &Option<Expr>,
    line: u32,
) -> Result<Stmt, AllocError>
    ensures { IfOk result (λ s. s ≡ Stmt.Signal name.now value.now line) }
{
    let name = name.copy(alloc)?;
    let (name, value) = beside(name, copy_expr_if_any(alloc, value))?;
    Ok(Stmt::Signal(name, value, line))
}
