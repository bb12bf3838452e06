//! How a call of a routine begins.

ghost use Rattle.std.specs.Prelude.{◌≡◌, ◌++◌, [], IfOk, OnOk, map};
ghost use Rattle.machine_rules.specs.Frames as rule;
ghost use Rattle.machine_rules.specs.declared.item.Item.TheVariants.{Exec};

use crate::vars::declare;
use clu_tree::{Named, Routine, Stmt, Value};
use machine_rules::{Frame, Item, Stack, Var};
use sqlite_items::Items;
use std::alloc::{AllocError, Global};
use tree_copies::{copy_shape, copy_stmts};

/// The parameters, each declared as its argument.
fn bind(alloc: Global, params: &[Named], mut args: Stack<Value>) -> Result<Items<Var>, AllocError>
    ensures { IfOk result (λ vars. vars ≡ rule.bind [] params.now args) }
{
    let mut vars = Items::new(alloc);
    for param in params {
        let Some(arg) = args.pop() else {
            break;
        };
        let name = param.name.copy(alloc)?;
        let shape = copy_shape(alloc, &param.shape)?;
        declare(&mut vars, name, shape, Some(arg))?;
    }
    Ok(vars)
}

/// Puts statements before the work, to be begun in order.
pub fn put_body(work: &mut Stack<Item>, mut body: Items<Stmt>) -> Result<(), AllocError>
    ensures { OnOk result (work.new ≡ map Exec body ++ work.old) }
{
    while let Some(stmt) = body.pop() {
        work.push(Item::Exec(stmt))?;
    }
    Ok(())
}

/// The frame of a call of the routine at this place of the program, counted from 0. It copies the body.
pub fn entry(
    alloc: Global,
    k: u16,
    routine: &Routine,
    args: Stack<Value>,
) -> Result<Frame, AllocError>
    ensures { IfOk result (λ frame. frame ≡ rule.entry k routine.now args) }
{
    let mut work = Stack::new(alloc);
    work.push(Item::Fall)?;
    let body = copy_stmts(alloc, routine.body.as_slice())?;
    put_body(&mut work, body)?;
    let vars = bind(alloc, routine.params.as_slice(), args)?;
    Ok(Frame {
        routine: k,
        line: routine.line,
        vars,
        work,
        values: Stack::new(alloc),
    })
}
