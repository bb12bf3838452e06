//! Programs that are stepped, and what each of their steps told.
ghost use Rattle.std.specs.Prelude.{◌≡◌, ◌∷◌, [], Some, None, IsSome, pos};
ghost use Rattle.clu_tree.specs.declared.value.Value.TheVariants as value;
ghost use Rattle.machine_tests.specs.Examples as of;
ghost use Rattle.machine_rules.specs.Examples.{program as program_of};

use crate::effects::{
    asking, forked, late, leaving, locking, maybe, node_vars, passing, signalling, signals_bad,
    takes_number, three_routines, tried, two_signals, waiting, waiting_on,
};
use crate::programs::{
    added, adds, array_and_third, array_loop, choosing, counter_shown, counting, fields, gets,
    growing, losing, makes, nap_body, numbers, showing, shrinking, strings, tags, three_quotients,
};
use crate::trees::{joined, one, program, text, two};
use crate::trial::Trial;
use clu_tree::{Routine, Sig, Stmt, Value};
use sqlite_items::Items;
use std::process::Abort;

// ---- what is told of a program with this body and these other routines

/// What so many steps tell, on a node with these variables.
fn run_with(
    rt: &(impl Abort + AllocGlobal),
    body: Items<Stmt>,
    others: Items<Routine>,
    vars: Vec<Option<Value>>,
    steps: u32,
) -> String
    requires { IsSome (of.ran steps (program_of body others) vars.items) }
{
    let program = program(rt, body, others);
    let mut trial = Trial::new(rt, program, vars);
    trial.go(rt, 0, steps);
    trial.told(rt)
}

/// The same on a node without variables.
fn run(
    rt: &(impl Abort + AllocGlobal),
    body: Items<Stmt>,
    others: Items<Routine>,
    steps: u32,
) -> String
    requires { IsSome (of.ran steps (program_of body others) []) }
{
    run_with(rt, body, others, Vec::new(rt.alloc()), steps)
}

/// What so many steps tell, and then, once the node gave this value, those up to the last.
fn run_given(
    rt: &(impl Abort + AllocGlobal),
    body: Items<Stmt>,
    others: Items<Routine>,
    steps: u32,
    value: Value,
    last: u32,
) -> String
    requires { IsSome (of.ran_on steps (of.given value) last (program_of body others)) }
{
    let program = program(rt, body, others);
    let mut trial = Trial::new(rt, program, Vec::new(rt.alloc()));
    trial.go(rt, 0, steps);
    trial.give(rt, value);
    trial.go(rt, steps, last);
    trial.told(rt)
}

/// What so many steps tell, and then, once the node raised this exception, those up to the last.
fn run_raised(
    rt: &(impl Abort + AllocGlobal),
    body: Items<Stmt>,
    others: Items<Routine>,
    steps: u32,
    sig: Sig,
    last: u32,
) -> String
    requires { IsSome (of.ran_on steps (of.raised sig) last (program_of body others)) }
{
    let program = program(rt, body, others);
    let mut trial = Trial::new(rt, program, Vec::new(rt.alloc()));
    trial.go(rt, 0, steps);
    trial.raise(rt, steps, sig);
    trial.go(rt, steps, last);
    trial.told(rt)
}

// ---- one process by itself

fn nothing(rt: &(impl Abort + AllocGlobal)) -> String {
    run(rt, Items::new(rt.alloc()), Items::new(rt.alloc()), 1)
}

fn hello(rt: &(impl Abort + AllocGlobal)) -> String {
    let body = one(rt, text(rt, b"hi"));
    run(rt, body, Items::new(rt.alloc()), 4)
}

fn nap(rt: &(impl Abort + AllocGlobal)) -> String {
    let body = nap_body(rt, 100);
    run(rt, body, Items::new(rt.alloc()), 7)
}

fn no_nap(rt: &(impl Abort + AllocGlobal)) -> String {
    let body = nap_body(rt, 0);
    run(rt, body, Items::new(rt.alloc()), 7)
}

fn arithmetic(rt: &(impl Abort + AllocGlobal)) -> String {
    let body = joined(rt, three_quotients(rt), array_and_third(rt));
    run(rt, body, Items::new(rt.alloc()), 54)
}

fn sum(rt: &(impl Abort + AllocGlobal)) -> String {
    let body = one(rt, added(rt));
    let others = one(rt, adds(rt));
    run(rt, body, others, 15)
}

fn signals(rt: &(impl Abort + AllocGlobal)) -> String {
    let body = two_signals(rt);
    let others = one(rt, signals_bad(rt));
    run(rt, body, others, 12)
}

fn elements(rt: &(impl Abort + AllocGlobal)) -> String {
    let body = array_loop(rt);
    run(rt, body, Items::new(rt.alloc()), 29)
}

fn region(rt: &(impl Abort + AllocGlobal)) -> String {
    let body = locking(rt);
    run(rt, body, Items::new(rt.alloc()), 12)
}

fn counts(rt: &(impl Abort + AllocGlobal)) -> String {
    let body = counting(rt);
    run(rt, body, Items::new(rt.alloc()), 48)
}

fn chooses(rt: &(impl Abort + AllocGlobal)) -> String {
    let body = choosing(rt);
    run(rt, body, Items::new(rt.alloc()), 15)
}

fn loops(rt: &(impl Abort + AllocGlobal)) -> String {
    let body = numbers(rt);
    run(rt, body, Items::new(rt.alloc()), 22)
}

fn shrinks(rt: &(impl Abort + AllocGlobal)) -> String {
    let body = shrinking(rt);
    run(rt, body, Items::new(rt.alloc()), 22)
}

fn arrays_used(rt: &(impl Abort + AllocGlobal)) -> String {
    let start = joined(rt, growing(rt), showing(rt));
    let body = joined(rt, start, losing(rt));
    run(rt, body, Items::new(rt.alloc()), 64)
}

fn record_used(rt: &(impl Abort + AllocGlobal)) -> String {
    let body = fields(rt);
    run(rt, body, Items::new(rt.alloc()), 26)
}

fn tag_taken(rt: &(impl Abort + AllocGlobal)) -> String {
    let body = tags(rt);
    run(rt, body, Items::new(rt.alloc()), 20)
}

fn strings_shown(rt: &(impl Abort + AllocGlobal)) -> String {
    let body = strings(rt);
    run(rt, body, Items::new(rt.alloc()), 17)
}

fn cluster(rt: &(impl Abort + AllocGlobal)) -> String {
    let body = one(rt, counter_shown(rt));
    let first = makes(rt);
    let others = two(rt, first, gets(rt));
    run(rt, body, others, 20)
}

fn passed_on(rt: &(impl Abort + AllocGlobal)) -> String {
    let body = passing(rt);
    let others = three_routines(rt);
    run(rt, body, others, 31)
}

fn left(rt: &(impl Abort + AllocGlobal)) -> String {
    let body = leaving(rt);
    run(rt, body, Items::new(rt.alloc()), 9)
}

// ---- a process and its node

fn forks(rt: &(impl Abort + AllocGlobal)) -> String {
    let body = one(rt, forked(rt));
    let others = one(rt, takes_number(rt));
    run(rt, body, others, 4)
}

/// A node variable that is 5, and one without a value.
fn five_and_none(rt: &(impl Abort + AllocGlobal)) -> Vec<Option<Value>>
    ensures { result.items ≡ Some (value.Int (pos 5)) ∷ None ∷ [] }
{
    let mut vars = Vec::new(rt.alloc());
    vars.push(Some(Value::Int(5))).expect(rt, "memory");
    vars.push(None).expect(rt, "memory");
    vars
}

fn vars_used(rt: &(impl Abort + AllocGlobal)) -> String {
    let body = node_vars(rt);
    let vars = five_and_none(rt);
    run_with(rt, body, Items::new(rt.alloc()), vars, 14)
}

fn asks(rt: &(impl Abort + AllocGlobal)) -> String {
    let body = asking(rt);
    let others = one(rt, adds(rt));
    run_given(rt, body, others, 6, Value::Int(5), 13)
}

fn signalled_on(rt: &(impl Abort + AllocGlobal)) -> String {
    let body = signalling(rt);
    run_given(rt, body, Items::new(rt.alloc()), 9, Value::Nil, 11)
}

fn waits_on(rt: &(impl Abort + AllocGlobal)) -> String {
    let body = waiting_on(rt);
    run_given(rt, body, Items::new(rt.alloc()), 9, Value::Nil, 11)
}

fn got(rt: &(impl Abort + AllocGlobal)) -> String {
    let body = waiting(rt);
    run_given(rt, body, Items::new(rt.alloc()), 10, Value::Bool(true), 15)
}

fn too_late(rt: &(impl Abort + AllocGlobal)) -> String {
    let body = waiting(rt);
    run_given(rt, body, Items::new(rt.alloc()), 10, Value::Bool(false), 15)
}

fn handled(rt: &(impl Abort + AllocGlobal)) -> String {
    let sig = late(rt);
    let body = one(rt, tried(rt));
    let others = one(rt, adds(rt));
    run_raised(rt, body, others, 7, sig, 11)
}

fn dies(rt: &(impl Abort + AllocGlobal)) -> String {
    let sig = late(rt);
    let body = one(rt, maybe(rt));
    let others = one(rt, adds(rt));
    run_raised(rt, body, others, 6, sig, 6)
}

#[test]
fn steps_are_counted_and_told(rt: HostRuntime) {
    for (got, want) in [
        (nothing(&rt), "1 ended; over"),
        (hello(&rt), "3 hi; 4 ended; over"),
        (nap(&rt), "3 sleep 100; 6 up; 7 ended; over"),
        (no_nap(&rt), "3 sleep 0; 6 up; 7 ended; over"),
        (
            arithmetic(&rt),
            "10 -4; 20 1; 37 overflow; 53 bounds; 54 ended; over",
        ),
        (sum(&rt), "14 5; 15 ended; over"),
        (
            signals(&rt),
            "8 bad; 12 failure (unhandled exception: bad); over",
        ),
        (elements(&rt), "21 5; 27 7; 29 ended; over"),
        (
            region(&rt),
            "3 sync 0 0; 7 enter 0; 10 in; 11 left 0; 12 ended; over",
        ),
        (counts(&rt), "47 two; 48 ended; over"),
        (chooses(&rt), "14 cor; 15 ended; over"),
        (loops(&rt), "10 1; 16 2; 21 0; 22 ended; over"),
        (shrinks(&rt), "20 5; 22 ended; over"),
        (
            arrays_used(&rt),
            "29 1; 41 9; 53 0; 63 other; 64 ended; over",
        ),
        (record_used(&rt), "25 6; 26 ended; over"),
        (tag_taken(&rt), "13 7; 19 others; 20 ended; over"),
        (strings_shown(&rt), "9 abz; 16 65; 17 ended; over"),
        (cluster(&rt), "19 4; 20 ended; over"),
        (passed_on(&rt), "12 bad; 22 no; 30 others; 31 ended; over"),
        (left(&rt), "3 sync 0 0; 7 enter 0; 9 left 0; 9 ended; over"),
    ] {
        assert_eq!(rt; got.as_str(), want);
    }
}

#[test]
fn processes_wait_for_their_node(rt: HostRuntime) {
    for (got, want) in [
        (forks(&rt), "3 fork 1 with 1,; 4 ended; over"),
        (vars_used(&rt), "5 5; 8 set 1 to 7; 13 7; 14 ended; over"),
        (asks(&rt), "6 ask 1 at 2 for 2,3,; 12 5; 13 ended; over"),
        (signalled_on(&rt), "4 sync 0 1; 9 signal 0; 11 ended; over"),
        (waits_on(&rt), "4 sync 0 1; 9 wait 0; 11 ended; over"),
        (
            got(&rt),
            "4 sync 0 1; 10 wait 0 for 50; 14 got; 15 ended; over",
        ),
        (
            too_late(&rt),
            "4 sync 0 1; 10 wait 0 for 50; 14 late; 15 ended; over",
        ),
        (
            handled(&rt),
            "7 ask 1 at 2 for 2,3, within 100; 10 late; 11 ended; over",
        ),
        (
            dies(&rt),
            "6 ask 1 at 2 for 2,3, within 100; 6 failure (unhandled exception: late); over",
        ),
    ] {
        assert_eq!(rt; got.as_str(), want);
    }
}
