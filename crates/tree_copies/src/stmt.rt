ghost use Rattle.std.specs.Prelude.{◌≡◌, IfOk};

use crate::expr::{copy_expr, copy_iter};
use crate::shape::{copy_named_if_any, copy_shape};
use crate::simple::{
    copy_assign, copy_call, copy_declare, copy_fork, copy_put_line, copy_remote_stmt, copy_return,
    copy_signal, copy_sleep,
};
use crate::text::copy_texts;
use clu_tree::{Arm, Handlers, Stmt, TagArm, When};
use owned_parts::{beside, boxed, followed};
use sqlite_items::{Boxed, Items};
use std::alloc::{AllocError, Global};

/// An equal statement.
#[cycle(copy_stmt)]
pub fn copy_stmt(alloc: Global, stmt: &Stmt) -> Result<Stmt, AllocError>
    ensures { IfOk result (λ s. s ≡ stmt.now) }
{
    match stmt {
        Stmt::Declare(name, shape, first, line) => copy_declare(alloc, name, shape, first, *line),
        Stmt::Assign(target, value, line) => copy_assign(alloc, target, value, *line),
        Stmt::Remote(receiver, remote, line, meant) => {
            copy_remote_stmt(alloc, receiver, remote, *line, *meant)
        }
        Stmt::Call(call, line) => copy_call(alloc, call, *line),
        Stmt::PutLine(text, line) => copy_put_line(alloc, text, *line),
        Stmt::Sleep(time, line) => copy_sleep(alloc, time, *line),
        Stmt::Fork(name, args, line, meant) => {
            copy_fork(alloc, name, args.as_slice(), *line, *meant)
        }
        Stmt::Return(value, line) => copy_return(alloc, value, *line),
        Stmt::Signal(name, value, line) => copy_signal(alloc, name, value, *line),
        Stmt::If(test, body, arms, others, line) => {
            let test = copy_expr(alloc, test)?;
            let first = beside(test, copy_stmts(alloc, body.as_slice()))?;
            let tested = beside(first, copy_arms(alloc, arms.as_slice()))?;
            match others {
                None => {
                    let ((test, body), arms) = tested;
                    Ok(Stmt::If(test, body, arms, None, *line))
                }
                Some(others) => {
                    let (tested, others) = beside(tested, copy_stmts(alloc, others.as_slice()))?;
                    let ((test, body), arms) = tested;
                    Ok(Stmt::If(test, body, arms, Some(others), *line))
                }
            }
        }
        Stmt::While(test, body, line) => {
            let test = copy_expr(alloc, test)?;
            let (test, body) = beside(test, copy_stmts(alloc, body.as_slice()))?;
            Ok(Stmt::While(test, body, *line))
        }
        Stmt::For(name, shape, iter, body, line) => {
            let name = name.copy(alloc)?;
            let variable = beside(name, copy_shape(alloc, shape))?;
            let over = beside(variable, copy_iter(alloc, iter))?;
            let (over, body) = beside(over, copy_stmts(alloc, body.as_slice()))?;
            let ((name, shape), iter) = over;
            Ok(Stmt::For(name, shape, iter, body, *line))
        }
        Stmt::Tagcase(value, arms, others, line) => {
            let value = copy_expr(alloc, value)?;
            let tagged = beside(value, copy_tag_arms(alloc, arms.as_slice()))?;
            match others {
                None => {
                    let (value, arms) = tagged;
                    Ok(Stmt::Tagcase(value, arms, None, *line))
                }
                Some(others) => {
                    let (tagged, others) = beside(tagged, copy_stmts(alloc, others.as_slice()))?;
                    let (value, arms) = tagged;
                    Ok(Stmt::Tagcase(value, arms, Some(others), *line))
                }
            }
        }
        Stmt::Begin(body, line) => {
            let body = copy_stmts(alloc, body.as_slice())?;
            Ok(Stmt::Begin(body, *line))
        }
        Stmt::Region(lock, body, line) => {
            let lock = copy_expr(alloc, lock)?;
            let (lock, body) = beside(lock, copy_stmts(alloc, body.as_slice()))?;
            Ok(Stmt::Region(lock, body, *line))
        }
        Stmt::Except(inner, handlers) => {
            let inner = copy_boxed(alloc, inner.get())?;
            let (inner, handlers) = beside(inner, copy_handlers(alloc, handlers))?;
            Ok(Stmt::Except(inner, handlers))
        }
        Stmt::Resignal(inner, names) => {
            let inner = copy_boxed(alloc, inner.get())?;
            let (inner, names) = beside(inner, copy_texts(alloc, names.as_slice()))?;
            Ok(Stmt::Resignal(inner, names))
        }
    }
}

#[cycle(copy_stmt)]
fn copy_boxed(alloc: Global, stmt: &Stmt) -> Result<Boxed<Stmt>, AllocError>
    ensures { IfOk result (λ s. s ≡ stmt.now) }
{
    boxed(alloc, copy_stmt(alloc, stmt))
}

/// Equal statements, in order.
#[cycle(copy_stmt)]
pub fn copy_stmts(alloc: Global, stmts: &[Stmt]) -> Result<Items<Stmt>, AllocError>
    ensures { IfOk result (λ ss. ss ≡ stmts.now) }
{
    let mut copies = Items::new(alloc);
    for stmt in stmts {
        copies = followed(copies, copy_stmt(alloc, stmt))?;
    }
    Ok(copies)
}

#[cycle(copy_stmt)]
fn copy_arm(alloc: Global, arm: &Arm) -> Result<Arm, AllocError>
    ensures { IfOk result (λ a. a ≡ arm.now) }
{
    let test = copy_expr(alloc, &arm.test)?;
    let (test, body) = beside(test, copy_stmts(alloc, arm.body.as_slice()))?;
    Ok(Arm { test, body })
}

#[cycle(copy_stmt)]
fn copy_arms(alloc: Global, arms: &[Arm]) -> Result<Items<Arm>, AllocError>
    ensures { IfOk result (λ a. a ≡ arms.now) }
{
    let mut copies = Items::new(alloc);
    for arm in arms {
        copies = followed(copies, copy_arm(alloc, arm))?;
    }
    Ok(copies)
}

#[cycle(copy_stmt)]
fn copy_tag_arm(alloc: Global, arm: &TagArm) -> Result<TagArm, AllocError>
    ensures { IfOk result (λ a. a ≡ arm.now) }
{
    let tag = arm.tag.copy(alloc)?;
    let named = beside(tag, copy_named_if_any(alloc, &arm.variable))?;
    let ((tag, variable), body) = beside(named, copy_stmts(alloc, arm.body.as_slice()))?;
    Ok(TagArm {
        tag,
        variable,
        body,
        meant: arm.meant,
    })
}

#[cycle(copy_stmt)]
fn copy_tag_arms(alloc: Global, arms: &[TagArm]) -> Result<Items<TagArm>, AllocError>
    ensures { IfOk result (λ a. a ≡ arms.now) }
{
    let mut copies = Items::new(alloc);
    for arm in arms {
        copies = followed(copies, copy_tag_arm(alloc, arm))?;
    }
    Ok(copies)
}

#[cycle(copy_stmt)]
fn copy_when(alloc: Global, when: &When) -> Result<When, AllocError>
    ensures { IfOk result (λ w. w ≡ when.now) }
{
    let names = copy_texts(alloc, when.names.as_slice())?;
    let named = beside(names, copy_named_if_any(alloc, &when.variable))?;
    let ((names, variable), body) = beside(named, copy_stmts(alloc, when.body.as_slice()))?;
    Ok(When {
        names,
        variable,
        body,
    })
}

#[cycle(copy_stmt)]
fn copy_whens(alloc: Global, whens: &[When]) -> Result<Items<When>, AllocError>
    ensures { IfOk result (λ w. w ≡ whens.now) }
{
    let mut copies = Items::new(alloc);
    for when in whens {
        copies = followed(copies, copy_when(alloc, when))?;
    }
    Ok(copies)
}

/// Equal handlers.
#[cycle(copy_stmt)]
pub fn copy_handlers(alloc: Global, handlers: &Handlers) -> Result<Handlers, AllocError>
    ensures { IfOk result (λ h. h ≡ handlers.now) }
{
    let whens = copy_whens(alloc, handlers.whens.as_slice())?;
    match &handlers.others {
        None => Ok(Handlers {
            whens,
            others: None,
        }),
        Some(others) => {
            let (whens, others) = beside(whens, copy_stmts(alloc, others.as_slice()))?;
            Ok(Handlers {
                whens,
                others: Some(others),
            })
        }
    }
}
