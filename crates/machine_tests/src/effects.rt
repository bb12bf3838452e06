//! Parts of programs that raise exceptions, hold locks, and ask the node.
ghost use Rattle.std.specs.Prelude.{◌≡◌, ◌∷◌, [], codes};
ghost use Rattle.machine_rules.specs.Examples as of;
ghost use Rattle.machine_tests.specs.Programs as more;

use crate::trees::{
    bytes, call, declares, handlers, int, line, local, named, one, operation, routine, says, shown,
    string, three, two, unset,
};
use clu_tree::{Expr, Handlers, Meant, Op, Routine, Shape, Sig, Stmt, Text, When, make};
use sqlite_items::Items;
use std::process::Abort;

// ---- exceptions

/// `name()`, of the routine at this place.
fn called(rt: &(impl Abort + AllocGlobal), name: &[u8], place: u16) -> Stmt
    ensures { result ≡ more.called name.now place }
{
    let call = call(rt, name, Items::new(rt.alloc()), place);
    make::call_stmt(call, 2)
}

/// `oops = proc () signal bad end oops`
pub fn signals_bad(rt: &(impl Abort + AllocGlobal)) -> Routine
    ensures { result ≡ of.signals_bad }
{
    let signal = make::signal(bytes(rt, b"bad"), None, 2);
    let body = one(rt, signal);
    routine(rt, b"oops", Items::new(rt.alloc()), None, body)
}

/// An exception that is handled, and one that isn't.
pub fn two_signals(rt: &(impl Abort + AllocGlobal)) -> Items<Stmt>
    ensures { result ≡ of.two_signals }
{
    let stmt = called(rt, b"oops", 1);
    let handlers = says(rt, b"bad");
    let handled = make::except(rt.alloc(), stmt, handlers).expect(rt, "memory");
    let oops = called(rt, b"oops", 1);
    two(rt, handled, oops)
}

/// `passing = proc () oops() resignal bad end passing`
fn passes(rt: &(impl Abort + AllocGlobal)) -> Routine
    ensures { result ≡ more.passes }
{
    let oops = called(rt, b"oops", 1);
    let names = one(rt, bytes(rt, b"bad"));
    let body = one(
        rt,
        make::resignal(rt.alloc(), oops, names).expect(rt, "memory"),
    );
    routine(rt, b"passing", Items::new(rt.alloc()), None, body)
}

/// `failing = proc () signal failure ("no") end failing`
fn fails(rt: &(impl Abort + AllocGlobal)) -> Routine
    ensures { result ≡ more.fails }
{
    let text = string(rt, b"no");
    let signal = make::signal(bytes(rt, b"failure"), Some(text), 2);
    let body = one(rt, signal);
    routine(rt, b"failing", Items::new(rt.alloc()), None, body)
}

/// Routines that signal, that pass an exception on, and that fail.
pub fn three_routines(rt: &(impl Abort + AllocGlobal)) -> Items<Routine>
    ensures { result ≡ of.signals_bad ∷ more.passes ∷ more.fails ∷ [] }
{
    let signals = signals_bad(rt);
    let passes = passes(rt);
    let fails = fails(rt);
    three(rt, signals, passes, fails)
}

/// `when failure (s: string): put_line(s)`
fn takes_text(rt: &(impl Abort + AllocGlobal)) -> When
    ensures { result ≡ more.takes_text }
{
    let s = local(rt, b"s");
    let body = one(rt, make::put_line(s, 2));
    let variable = named(rt, b"s", Shape::Str);
    let names = one(rt, bytes(rt, b"failure"));
    make::when(names, Some(variable), body)
}

/// `except when failure (s: string): put_line(s) end`
fn shows_text(rt: &(impl Abort + AllocGlobal)) -> Handlers
    ensures { result ≡ more.shows_text }
{
    let whens = one(rt, takes_text(rt));
    handlers(whens, None)
}

/// `except others: put_line("others") end`
fn to_others(rt: &(impl Abort + AllocGlobal)) -> Handlers
    ensures { result ≡ more.to_others }
{
    let body = line(rt, b"others");
    handlers(Items::new(rt.alloc()), Some(body))
}

/// `oops() except others: put_line("others") end`
fn other(rt: &(impl Abort + AllocGlobal)) -> Stmt
    ensures { result ≡ more.other }
{
    let call = called(rt, b"oops", 1);
    let handlers = to_others(rt);
    make::except(rt.alloc(), call, handlers).expect(rt, "memory")
}

/// `passing() except when bad: put_line("bad") end`
fn passed(rt: &(impl Abort + AllocGlobal)) -> Stmt
    ensures { result ≡ more.passed }
{
    let call = called(rt, b"passing", 2);
    let handlers = says(rt, b"bad");
    make::except(rt.alloc(), call, handlers).expect(rt, "memory")
}

/// `failing() except when failure (s: string): put_line(s) end`
fn failed(rt: &(impl Abort + AllocGlobal)) -> Stmt
    ensures { result ≡ more.failed }
{
    let call = called(rt, b"failing", 3);
    let handlers = shows_text(rt);
    make::except(rt.alloc(), call, handlers).expect(rt, "memory")
}

/// An exception that is passed on, one with a value, and one that any handler takes.
pub fn passing(rt: &(impl Abort + AllocGlobal)) -> Items<Stmt>
    ensures { result ≡ more.passing }
{
    let passed = passed(rt);
    let failed = failed(rt);
    let other = other(rt);
    three(rt, passed, failed, other)
}

// ---- locks

/// `l: lock := lock$create()`
fn lock(rt: &(impl Abort + AllocGlobal)) -> Stmt
    ensures { result ≡ of.lock }
{
    let create = operation(
        rt,
        Shape::Lock,
        b"create",
        Items::new(rt.alloc()),
        Op::LockCreate,
    );
    declares(rt, b"l", Shape::Lock, create)
}

/// A lock, and a region that prints.
pub fn locking(rt: &(impl Abort + AllocGlobal)) -> Items<Stmt>
    ensures { result ≡ of.lock ∷ of.locked ∷ [] }
{
    let lock = lock(rt);
    let body = line(rt, b"in");
    let locked = make::region(local(rt, b"l"), body, 2);
    two(rt, lock, locked)
}

/// A lock, and a region that is left by a `return`.
pub fn leaving(rt: &(impl Abort + AllocGlobal)) -> Items<Stmt>
    ensures { result ≡ more.leaving }
{
    let lock = lock(rt);
    let block = one(rt, make::return_value(None, 2));
    let body = one(rt, make::begin(block, 2));
    let left = make::region(local(rt, b"l"), body, 2);
    two(rt, lock, left)
}

// ---- what the node does

/// `put_line(int$unparse(name))`, of the node variable at this place.
fn node_var_shown(rt: &(impl Abort + AllocGlobal), name: &[u8], place: u16) -> Stmt
    ensures { result ≡ of.shown (more.node_var name.now place) }
{
    let name = bytes(rt, name);
    shown(rt, make::name(name, 2, Meant::NodeVar(place)))
}

/// One node variable is read, and one is set and read.
pub fn node_vars(rt: &(impl Abort + AllocGlobal)) -> Items<Stmt>
    ensures { result ≡ more.node_vars }
{
    let g = node_var_shown(rt, b"g", 0);
    let target = make::to_name(bytes(rt, b"h"), 2, Meant::NodeVar(1));
    let set = make::assign(target, int(7), 2);
    let h = node_var_shown(rt, b"h", 1);
    three(rt, g, set, h)
}

/// `s: semaphore := semaphore$create(1)`
fn semaphore(rt: &(impl Abort + AllocGlobal)) -> Stmt
    ensures { result ≡ more.semaphore }
{
    let args = one(rt, int(1));
    let create = operation(rt, Shape::Semaphore, b"create", args, Op::SemCreate);
    declares(rt, b"s", Shape::Semaphore, create)
}

/// A semaphore is made and signalled.
pub fn signalling(rt: &(impl Abort + AllocGlobal)) -> Items<Stmt>
    ensures { result ≡ more.semaphore ∷ more.signalled ∷ [] }
{
    let semaphore = semaphore(rt);
    let args = one(rt, local(rt, b"s"));
    let signal = operation(rt, Shape::Semaphore, b"signal", args, Op::SemSignal);
    two(rt, semaphore, make::call_stmt(signal, 2))
}

/// A semaphore is made and waited for.
pub fn waiting_on(rt: &(impl Abort + AllocGlobal)) -> Items<Stmt>
    ensures { result ≡ more.semaphore ∷ more.waited_on ∷ [] }
{
    let semaphore = semaphore(rt);
    let args = one(rt, local(rt, b"s"));
    let wait = operation(rt, Shape::Semaphore, b"wait", args, Op::SemWait);
    two(rt, semaphore, make::call_stmt(wait, 2))
}

/// `semaphore$wait_for(s, 50)`
fn waits(rt: &(impl Abort + AllocGlobal)) -> Expr
    ensures { result ≡ more.waits }
{
    let args = two(rt, local(rt, b"s"), int(50));
    operation(rt, Shape::Semaphore, b"wait_for", args, Op::SemWaitFor)
}

/// A semaphore is made and waited for, at most 50 ms.
pub fn waiting(rt: &(impl Abort + AllocGlobal)) -> Items<Stmt>
    ensures { result ≡ more.semaphore ∷ more.waited ∷ [] }
{
    let test = waits(rt);
    let got = line(rt, b"got");
    let late = line(rt, b"late");
    let waited = make::if_then(test, got, Items::new(rt.alloc()), Some(late), 2);
    let semaphore = semaphore(rt);
    two(rt, semaphore, waited)
}

/// `q = proc (n: int) end q`
pub fn takes_number(rt: &(impl Abort + AllocGlobal)) -> Routine
    ensures { result ≡ more.takes_number }
{
    let params = one(rt, named(rt, b"n", Shape::Int));
    routine(rt, b"q", params, None, Items::new(rt.alloc()))
}

/// `fork q(1)`
pub fn forked(rt: &(impl Abort + AllocGlobal)) -> Stmt
    ensures { result ≡ more.forked }
{
    let args = one(rt, int(1));
    make::fork(bytes(rt, b"q"), args, 2, Meant::Routine(1))
}

/// `x := once add(2, 3) at 2`
fn asked(rt: &(impl Abort + AllocGlobal)) -> Stmt
    ensures { result ≡ more.asked }
{
    let args = two(rt, int(2), int(3));
    let name = bytes(rt, b"add");
    let once = make::once(name, args, int(2), 2, Meant::Routine(1));
    let receiver = bytes(rt, b"x");
    make::remote(Some(receiver), once, 2, Meant::Local)
}

/// `x: int`, `x := once add(2, 3) at 2` and `put_line(int$unparse(x))`
pub fn asking(rt: &(impl Abort + AllocGlobal)) -> Items<Stmt>
    ensures { result ≡ more.asking }
{
    let unset = unset(rt, b"x", Shape::Int);
    let asked = asked(rt);
    let x = local(rt, b"x");
    let shown = shown(rt, x);
    three(rt, unset, asked, shown)
}

/// `maybe add(2, 3) at 2 within 100`
pub fn maybe(rt: &(impl Abort + AllocGlobal)) -> Stmt
    ensures { result ≡ more.maybe }
{
    let args = two(rt, int(2), int(3));
    let name = bytes(rt, b"add");
    let call = make::maybe(name, args, int(2), int(100), 2, Meant::Routine(1));
    make::remote(None, call, 2, Meant::Unknown)
}

/// The same with a handler of `late`.
pub fn tried(rt: &(impl Abort + AllocGlobal)) -> Stmt
    ensures { result ≡ more.tried }
{
    let maybe = maybe(rt);
    make::except(rt.alloc(), maybe, says(rt, b"late")).expect(rt, "memory")
}

/// The exception that a call was late.
pub fn late(rt: &(impl Abort + AllocGlobal)) -> Sig
    ensures { result ≡ more.bare_sig (codes "late") }
{
    Sig {
        name: bytes(rt, b"late"),
        value: None,
    }
}
