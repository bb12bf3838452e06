ghost use Rattle.std.specs.Prelude.{◌≡◌, IfOk};

use crate::shape::copy_shape;
use clu_tree::{Expr, FieldInit, Iter, Remote, Target};
use owned_parts::{beside, boxed, followed};
use sqlite_items::{Boxed, Items};
use std::alloc::{AllocError, Global};

/// An equal expression.
#[cycle(copy_expr)]
pub fn copy_expr(alloc: Global, expr: &Expr) -> Result<Expr, AllocError>
    ensures { IfOk result (λ e. e ≡ expr.now) }
{
    match expr {
        Expr::Literal(value, line) => {
            let value = value.copy(alloc)?;
            Ok(Expr::Literal(value, *line))
        }
        Expr::Name(name, line, meant) => {
            let name = name.copy(alloc)?;
            Ok(Expr::Name(name, *line, *meant))
        }
        Expr::Binary(left, infix, right, line, meant) => {
            let left = copy_boxed(alloc, left.get())?;
            let (left, right) = beside(left, copy_boxed(alloc, right.get()))?;
            Ok(Expr::Binary(left, *infix, right, *line, *meant))
        }
        Expr::Unary(prefix, operand, line, meant) => {
            let operand = copy_boxed(alloc, operand.get())?;
            Ok(Expr::Unary(*prefix, operand, *line, *meant))
        }
        Expr::Call(name, args, line, meant) => {
            let name = name.copy(alloc)?;
            let (name, args) = beside(name, copy_exprs(alloc, args.as_slice()))?;
            Ok(Expr::Call(name, args, *line, *meant))
        }
        Expr::Op(shape, name, args, line, meant) => {
            let shape = copy_shape(alloc, shape)?;
            let owner = beside(shape, name.copy(alloc))?;
            let ((shape, name), args) = beside(owner, copy_exprs(alloc, args.as_slice()))?;
            Ok(Expr::Op(shape, name, args, *line, *meant))
        }
        Expr::Record(shape, fields, line, meant) => {
            let shape = copy_shape(alloc, shape)?;
            let (shape, fields) = beside(shape, copy_fields(alloc, fields.as_slice()))?;
            Ok(Expr::Record(shape, fields, *line, *meant))
        }
        Expr::Array(shape, items, line, meant) => {
            let shape = copy_shape(alloc, shape)?;
            let (shape, items) = beside(shape, copy_exprs(alloc, items.as_slice()))?;
            Ok(Expr::Array(shape, items, *line, *meant))
        }
        Expr::Up(inner, line) => {
            let inner = copy_boxed(alloc, inner.get())?;
            Ok(Expr::Up(inner, *line))
        }
        Expr::Down(inner, line) => {
            let inner = copy_boxed(alloc, inner.get())?;
            Ok(Expr::Down(inner, *line))
        }
        Expr::Now(line) => Ok(Expr::Now(*line)),
        Expr::Field(record, name, line, meant) => {
            let record = copy_boxed(alloc, record.get())?;
            let (record, name) = beside(record, name.copy(alloc))?;
            Ok(Expr::Field(record, name, *line, *meant))
        }
        Expr::Index(list, at, line, meant) => {
            let list = copy_boxed(alloc, list.get())?;
            let (list, at) = beside(list, copy_boxed(alloc, at.get()))?;
            Ok(Expr::Index(list, at, *line, *meant))
        }
    }
}

#[cycle(copy_expr)]
fn copy_boxed(alloc: Global, expr: &Expr) -> Result<Boxed<Expr>, AllocError>
    ensures { IfOk result (λ e. e ≡ expr.now) }
{
    boxed(alloc, copy_expr(alloc, expr))
}

/// Equal expressions, in order.
#[cycle(copy_expr)]
pub fn copy_exprs(alloc: Global, exprs: &[Expr]) -> Result<Items<Expr>, AllocError>
    ensures { IfOk result (λ es. es ≡ exprs.now) }
{
    let mut copies = Items::new(alloc);
    for expr in exprs {
        copies = followed(copies, copy_expr(alloc, expr))?;
    }
    Ok(copies)
}

#[cycle(copy_expr)]
fn copy_field(alloc: Global, field: &FieldInit) -> Result<FieldInit, AllocError>
    ensures { IfOk result (λ f. f ≡ field.now) }
{
    let name = field.name.copy(alloc)?;
    let (name, value) = beside(name, copy_expr(alloc, &field.value))?;
    Ok(FieldInit { name, value })
}

#[cycle(copy_expr)]
fn copy_fields(alloc: Global, fields: &[FieldInit]) -> Result<Items<FieldInit>, AllocError>
    ensures { IfOk result (λ fs. fs ≡ fields.now) }
{
    let mut copies = Items::new(alloc);
    for field in fields {
        copies = followed(copies, copy_field(alloc, field))?;
    }
    Ok(copies)
}

pub(crate) fn copy_expr_if_any(
    alloc: Global,
    expr: &Option<Expr>,
) -> Result<Option<Expr>, AllocError>
    ensures { IfOk result (λ e. e ≡ expr.now) }
{
    match expr {
        None => Ok(None),
        Some(expr) => {
            let expr = copy_expr(alloc, expr)?;
            Ok(Some(expr))
        }
    }
}

/// An equal target of an assignment.
pub(crate) fn copy_target(alloc: Global, target: &Target) -> Result<Target, AllocError>
    ensures { IfOk result (λ t. t ≡ target.now) }
{
    match target {
        Target::Name(name, line, meant) => {
            let name = name.copy(alloc)?;
            Ok(Target::Name(name, *line, *meant))
        }
        Target::Field(record, name, line, meant) => {
            let record = copy_expr(alloc, record)?;
            let (record, name) = beside(record, name.copy(alloc))?;
            Ok(Target::Field(record, name, *line, *meant))
        }
        Target::Index(list, at, line, meant) => {
            let list = copy_expr(alloc, list)?;
            let (list, at) = beside(list, copy_expr(alloc, at))?;
            Ok(Target::Index(list, at, *line, *meant))
        }
    }
}

/// An equal remote call.
pub(crate) fn copy_remote(alloc: Global, remote: &Remote) -> Result<Remote, AllocError>
    ensures { IfOk result (λ r. r ≡ remote.now) }
{
    match remote {
        Remote::Once(name, args, at, line, meant) => {
            let name = name.copy(alloc)?;
            let call = beside(name, copy_exprs(alloc, args.as_slice()))?;
            let ((name, args), at) = beside(call, copy_expr(alloc, at))?;
            Ok(Remote::Once(name, args, at, *line, *meant))
        }
        Remote::Maybe(name, args, at, within, line, meant) => {
            let name = name.copy(alloc)?;
            let call = beside(name, copy_exprs(alloc, args.as_slice()))?;
            let call = beside(call, copy_expr(alloc, at))?;
            let (((name, args), at), within) = beside(call, copy_expr(alloc, within))?;
            Ok(Remote::Maybe(name, args, at, within, *line, *meant))
        }
    }
}

/// An equal range or sequence of a `for`.
pub(crate) fn copy_iter(alloc: Global, iter: &Iter) -> Result<Iter, AllocError>
    ensures { IfOk result (λ i. i ≡ iter.now) }
{
    match iter {
        Iter::FromTo(first, last, line) => {
            let first = copy_expr(alloc, first)?;
            let (first, last) = beside(first, copy_expr(alloc, last))?;
            Ok(Iter::FromTo(first, last, *line))
        }
        Iter::Elements(shape, list, line) => {
            let shape = copy_shape(alloc, shape)?;
            let (shape, list) = beside(shape, copy_expr(alloc, list))?;
            Ok(Iter::Elements(shape, list, *line))
        }
    }
}
