//! The row of an item, whatever it is.

ghost use Rattle.std.specs.Prelude.{◌≡◌, ◌<◌, ◌^◌, IfOk, IsSome};
ghost use Rattle.eval_objects.specs.Seen.{IsSeenAs, took};
ghost use Rattle.machine_rules.specs.Row as rule;
ghost use Rattle.machine_rules.specs.World.{World};
ghost use Rattle.obj_region.specs.Answers.{holding};

use clu_tree::{Program, Value};
use eval_items::{
    ask_maybe, ask_once, assign, assign_node, branch, discard, enter, eval, exec, fall, for_int,
    give, go_round, grab, guard, leave, nap, next, pick, print, raise, spawn,
};
use eval_objects::{apply, each, for_each, get, make_array, make_record, make_tag, put, tagged};
use machine_rules::{Frame, Item, Stack, StepEnd};
use obj_region::Store;
use std::alloc::{AllocError, Global};

/// The row of an item that was taken off the work of a frame that was taken off the others.
pub fn row_at<S: Store>(
    alloc: Global,
    program: &Program,
    store: &mut S,
    vars: &[Option<Value>],
    time: u64,
    frames: &mut Stack<Frame>,
    frame: Frame,
    item: Item,
) -> Result<StepEnd, AllocError>
    ghost w: { World }
    requires program { w.program ≡ program.now }
    requires store { IsSeenAs w (S.seen store.old) }
    requires vars { w.vars ≡ vars.now }
    requires time { w.time ≡ time }
    requires early { time < 2 ^ 63 }
    requires row { IsSome (rule.row_at w frame frames.old frame.work item) }
    ensures row { IfOk result (λ end.
        rule.row_at w frame frames.old frame.work item
        ≡ took end.left end.act (S.seen store.new).objects frames.new) }
    ensures kept { S.seen store.new ≡ holding (S.seen store.old) (S.seen store.new).objects }
{
    match item {
        Item::Eval(expr) => eval(alloc, vars, time, frames, frame, expr),
        Item::Apply(op) => apply(alloc, store, frames, frame, op),
        Item::MakeRecord(count) => make_record(alloc, store, frames, frame, count),
        Item::MakeArray(count) => make_array(alloc, store, frames, frame, count),
        Item::MakeTag(tag) => make_tag(alloc, store, frames, frame, tag),
        Item::Get(field) => get(alloc, store, frames, frame, field),
        Item::Put(field) => put(alloc, store, frames, frame, field),
        Item::Pick(or, second) => pick(alloc, frames, frame, or, second),
        Item::Enter(k) => enter(alloc, program, frames, frame, k),
        Item::Fall => fall(alloc, program, frames, frame),
        Item::Exec(stmt) => exec(alloc, frames, frame, stmt),
        Item::Assign(name) => assign(alloc, frames, frame, name),
        Item::AssignNode(k) => assign_node(alloc, frames, frame, k),
        Item::Discard => discard(alloc, frames, frame),
        Item::Print => print(alloc, frames, frame),
        Item::Nap => nap(alloc, frames, frame),
        Item::Grab(body) => grab(alloc, frames, frame, body),
        Item::Leave(lock) => leave(alloc, frames, frame, lock),
        Item::Spawn(k) => spawn(alloc, program, frames, frame, k),
        Item::AskOnce(k) => ask_once(alloc, program, frames, frame, k),
        Item::AskMaybe(k) => ask_maybe(alloc, program, frames, frame, k),
        Item::Branch(body, arms, others) => branch(alloc, frames, frame, body, arms, others),
        Item::Loop(test, body, line) => go_round(alloc, frames, frame, test, body, line),
        Item::ForInt(name, shape, body) => for_int(alloc, frames, frame, name, shape, body),
        Item::Next(name, shape, body, n, last) => {
            next(alloc, frames, frame, name, shape, body, n, last)
        }
        Item::ForEach(name, shape, body) => {
            for_each(alloc, store, frames, frame, name, shape, body)
        }
        Item::Each(name, shape, body, at, index) => {
            each(alloc, store, frames, frame, name, shape, body, at, index)
        }
        Item::Tagged(arms, others) => tagged(alloc, store, frames, frame, arms, others),
        Item::Guard(catch) => guard(alloc, frames, frame, catch),
        Item::Raise(name) => raise(alloc, frames, frame, name),
        Item::Give => give(alloc, frames, frame),
    }
}
