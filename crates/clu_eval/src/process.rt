ghost use Rattle.std.specs.Prelude.{◌≡◌, ◌≢◌, ◌↔◌, ◌<◌, ◌^◌, [], Some, IfOk, IsSome, IsTrue, OnOk, slice_get};
ghost use Rattle.clu_eval.specs.Steps.{world_at};
ghost use Rattle.clu_tree.specs.declared.program.Routine.{Routine};
ghost use Rattle.clu_tree.specs.declared.tree.Stmt.{out-Stmt};
ghost use Rattle.eval_objects.specs.Seen.{took};
ghost use Rattle.machine_rules.specs.Row as rule;
ghost use Rattle.machine_rules.specs.World.{World};
ghost use Rattle.obj_region.specs.Answers.{holding};

use crate::rows::row_at;
use clu_tree::{Program, Sig, Stmt, Value};
use eval_frames::{entry, stacked, unwind};
use machine_rules::{Frame, Item, Stack, StepEnd};
use obj_region::Store;
use sqlite_items::Items;
use std::alloc::{AllocError, Global};
use std::marker::Model;

/// Memory ran out.
pub type Memory = AllocError;

/// A process, which contracts see as its frames from the innermost. It is over once it has none. After an error of a
/// call that changes it, it can only be dropped.
#[derive(Drop)]
pub struct Process {
    frames: Stack<Frame>,
}

impl Model for Process {
    ghost use Rattle.std.specs.Prelude.{List};
    ghost use Rattle.std.specs.Coded.{codes};
    ghost use Rattle.machine_rules.specs.declared.frame.Frame.{Frame};
    ghost use Rattle.clu_tree.specs.contracts.shape.Shape as shape;
    ghost use Rattle.clu_tree.specs.contracts.tree.Expr as expr;
    ghost use Rattle.clu_tree.specs.contracts.tree.Stmt as stmt;
    ghost use Rattle.clu_tree.specs.contracts.tree.Arm as arm;
    ghost use Rattle.clu_tree.specs.contracts.tree.TagArm as tag_arm;
    ghost use Rattle.clu_tree.specs.contracts.tree.Handlers as handlers;

    ghost Value = { List Frame };

    ghost coded = { Prim.hlevel (
      codes,
      shape.the_row.coded,
      expr.the_row.coded,
      stmt.the_row.coded,
      arm.the_row.coded,
      tag_arm.the_row.coded,
      handlers.the_row.coded,
    ) };

    ghost view = { λ p. p.frames };
}

impl Process {
    /// The process that calls the routine at this place of the program, counted from 0, with these arguments. It copies
    /// the routine's body.
    pub fn new(
        alloc: Global,
        program: &Program,
        routine: u16,
        args: Vec<Value>,
    ) -> Result<Process, Memory>
        requires { IsSome (slice_get program.now.routines routine) }
        ensures { IfOk result (λ p.
            (r : Routine) → slice_get program.now.routines routine ≡ Some r → p ≡ rule.start routine r args.items) }
    {
        match program.routines.get(routine as usize) {
            None => unreachable!(),
            Some(r) => {
                let args = stacked(alloc, args)?;
                let frame = entry(alloc, routine, r, args)?;
                let mut frames = Stack::new(alloc);
                frames.push(frame)?;
                Ok(Process { frames })
            }
        }
    }

    /// Takes one step of a process that has a row, over the node's objects, its variables and its time in ms. The time
    /// that it takes doesn't depend on how much the process has still to do.
    pub fn step<S: Store>(
        &mut self,
        alloc: Global,
        program: &Program,
        store: &mut S,
        vars: &[Option<Value>],
        time: u64,
    ) -> Result<StepEnd, Memory>
        requires early { time < 2 ^ 63 }
        requires row { IsSome (rule.row (world_at program.now (S.seen store.old) vars.now time) self.old) }
        ensures row { IfOk result (λ end.
            rule.row (world_at program.now (S.seen store.old) vars.now time) self.old
            ≡ took end.left end.act (S.seen store.new).objects self.new) }
        ensures kept { S.seen store.new ≡ holding (S.seen store.old) (S.seen store.new).objects }
    {
        step_row(alloc, program, store, vars, time, &mut self.frames)
    }

    /// Gives a value to a process that waited for it.
    pub fn give(&mut self, value: Value) -> Result<(), Memory>
        requires { self.old ≢ [] }
        ensures { OnOk result (self.new ≡ rule.give value self.old) }
    {
        give_value(&mut self.frames, value)
    }

    /// Raises an exception in a process that waited, and answers what a step answers. No object is changed by it, and
    /// `w` may be any world in which the process has a row for it.
    pub fn raise(&mut self, alloc: Global, program: &Program, sig: Sig) -> Result<StepEnd, Memory>
        ghost w: { World }
        requires goes_on { self.old ≢ [] }
        requires row { IsSome (rule.raise w sig self.old) }
        ensures { IfOk result (λ end. rule.raise w sig self.old ≡ took end.left end.act w.store self.new) }
    {
        raise_in(alloc, program, &mut self.frames, sig)
    }

    /// The line of the statement that the next step begins. None exactly where it begins none.
    pub fn stands(&self) -> Option<u32>
        ensures { result ≡ rule.stands self.now }
    {
        match self.frames.get(0) {
            None => None,
            Some(frame) => begun_by(&frame.work),
        }
    }

    /// Whether the process is over.
    pub fn is_over(&self) -> bool
        ensures { IsTrue result ↔ (self.now ≡ []) }
    {
        self.frames.is_empty()
    }
}

/// The row of the frames, where they have one.
fn step_row<S: Store>(
    alloc: Global,
    program: &Program,
    store: &mut S,
    vars: &[Option<Value>],
    time: u64,
    frames: &mut Stack<Frame>,
) -> Result<StepEnd, Memory>
    requires early { time < 2 ^ 63 }
    requires row { IsSome (rule.row (world_at program.now (S.seen store.old) vars.now time) frames.old) }
    ensures row { IfOk result (λ end.
        rule.row (world_at program.now (S.seen store.old) vars.now time) frames.old
        ≡ took end.left end.act (S.seen store.new).objects frames.new) }
    ensures kept { S.seen store.new ≡ holding (S.seen store.old) (S.seen store.new).objects }
{
    let Some(mut frame) = frames.pop() else {
        unreachable!();
    };
    let Some(item) = frame.work.pop() else {
        unreachable!();
    };
    row_at(alloc, program, store, vars, time, frames, frame, item)
}

/// Puts a value on top of those of the innermost frame.
fn give_value(frames: &mut Stack<Frame>, value: Value) -> Result<(), Memory>
    requires { frames.old ≢ [] }
    ensures { OnOk result (frames.new ≡ rule.give value frames.old) }
{
    let Some(mut frame) = frames.pop() else {
        unreachable!();
    };
    frame.values.push(value)?;
    frames.push(frame)
}

/// Raises an exception in the innermost frame of a process of the program.
fn raise_in(
    alloc: Global,
    program: &Program,
    frames: &mut Stack<Frame>,
    sig: Sig,
) -> Result<StepEnd, Memory>
    ghost w: { World }
    requires row { IsSome (rule.raise w sig frames.old) }
    ensures { IfOk result (λ end. rule.raise w sig frames.old ≡ took end.left end.act w.store frames.new) }
{
    let _program = program;
    unwind(alloc, frames, Items::new(alloc), sig)
}

/// The line of the statement that this work begins with, if it does and the statement has one of its own.
fn begun_by(work: &Stack<Item>) -> Option<u32>
    ensures { result ≡ rule.begun_by work.now }
{
    match work.get(0) {
        Some(Item::Exec(stmt)) => own_line(stmt),
        _ => None,
    }
}

/// The line of a statement. One that stands round another has none of its own.
fn own_line(stmt: &Stmt) -> Option<u32>
    ensures { result ≡ rule.own_line (out-Stmt stmt.now) }
{
    match stmt {
        Stmt::Declare(_, _, _, line) => Some(*line),
        Stmt::Assign(_, _, line) => Some(*line),
        Stmt::Remote(_, _, line, _) => Some(*line),
        Stmt::Call(_, line) => Some(*line),
        Stmt::PutLine(_, line) => Some(*line),
        Stmt::Sleep(_, line) => Some(*line),
        Stmt::Fork(_, _, line, _) => Some(*line),
        Stmt::Return(_, line) => Some(*line),
        Stmt::Signal(_, _, line) => Some(*line),
        Stmt::If(_, _, _, _, line) => Some(*line),
        Stmt::While(_, _, line) => Some(*line),
        Stmt::For(_, _, _, _, line) => Some(*line),
        Stmt::Tagcase(_, _, _, line) => Some(*line),
        Stmt::Begin(_, line) => Some(*line),
        Stmt::Region(_, _, line) => Some(*line),
        Stmt::Except(_, _) => None,
        Stmt::Resignal(_, _) => None,
    }
}
