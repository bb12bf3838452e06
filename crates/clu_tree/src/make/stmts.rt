//! Statements. What a name stands for is `Meant::Unknown` in a tree that reads.

ghost use Rattle.std.specs.Prelude.{◌≡◌, IfOk};
ghost use Rattle.clu_tree.specs.declared.tree.Handlers.{out-Handlers};

use crate::shape::{Named, Shape};
use crate::text::Text;
use crate::tree::{Arm, Expr, Handlers, Iter, Meant, Remote, Stmt, TagArm, Target, When};
use sqlite_items::{Boxed, Items};
use std::alloc::{AllocError, Global};

/// `name: shape`, or `name: shape := first`
pub fn declare(name: Text, shape: Shape, first: Option<Expr>, line: u32) -> Stmt
    ensures { result ≡ Stmt.Declare name shape first line }
{
    Stmt::Declare(name, shape, first, line)
}

/// `target := value`
pub fn assign(target: Target, value: Expr, line: u32) -> Stmt
    ensures { result ≡ Stmt.Assign target value line }
{
    Stmt::Assign(target, value, line)
}

/// A variable before `:=`.
pub fn to_name(name: Text, line: u32, meant: Meant) -> Target
    ensures { result ≡ Target.Name name line meant }
{
    Target::Name(name, line, meant)
}

/// `owner.name` before `:=`.
pub fn to_field(owner: Expr, name: Text, line: u32, meant: Meant) -> Target
    ensures { result ≡ Target.Field owner name line meant }
{
    Target::Field(owner, name, line, meant)
}

/// `array[index]` before `:=`.
pub fn to_index(array: Expr, index: Expr, line: u32, meant: Meant) -> Target
    ensures { result ≡ Target.Index array index line meant }
{
    Target::Index(array, index, line, meant)
}

/// `call`, or `receiver := call`
pub fn remote(receiver: Option<Text>, call: Remote, line: u32, meant: Meant) -> Stmt
    ensures { result ≡ Stmt.Remote receiver call line meant }
{
    Stmt::Remote(receiver, call, line, meant)
}

/// `once name(args) at node`
pub fn once(name: Text, args: Items<Expr>, node: Expr, line: u32, meant: Meant) -> Remote
    ensures { result ≡ Remote.Once name args node line meant }
{
    Remote::Once(name, args, node, line, meant)
}

/// `maybe name(args) at node within limit`, with the limit in ms.
pub fn maybe(
    name: Text,
    args: Items<Expr>,
    node: Expr,
    limit: Expr,
    line: u32,
    meant: Meant,
) -> Remote
    ensures { result ≡ Remote.Maybe name args node limit line meant }
{
    Remote::Maybe(name, args, node, limit, line, meant)
}

/// A call of a routine or of an operation.
pub fn call_stmt(call: Expr, line: u32) -> Stmt
    ensures { result ≡ Stmt.Call call line }
{
    Stmt::Call(call, line)
}

/// `put_line(text)`
pub fn put_line(text: Expr, line: u32) -> Stmt
    ensures { result ≡ Stmt.PutLine text line }
{
    Stmt::PutLine(text, line)
}

/// `sleep(time)`, with the time in ms.
pub fn sleep(time: Expr, line: u32) -> Stmt
    ensures { result ≡ Stmt.Sleep time line }
{
    Stmt::Sleep(time, line)
}

/// `fork name(args)`
pub fn fork(name: Text, args: Items<Expr>, line: u32, meant: Meant) -> Stmt
    ensures { result ≡ Stmt.Fork name args line meant }
{
    Stmt::Fork(name, args, line, meant)
}

/// `return`, or `return (value)`
pub fn return_value(value: Option<Expr>, line: u32) -> Stmt
    ensures { result ≡ Stmt.Return value line }
{
    Stmt::Return(value, line)
}

/// `signal name`, or `signal name (value)`
pub fn signal(name: Text, value: Option<Expr>, line: u32) -> Stmt
    ensures { result ≡ Stmt.Signal name value line }
{
    Stmt::Signal(name, value, line)
}

/// `if test then body arms else others end`
pub fn if_then(
    test: Expr,
    body: Items<Stmt>,
    arms: Items<Arm>,
    others: Option<Items<Stmt>>,
    line: u32,
) -> Stmt
    ensures { result ≡ Stmt.If test body arms others line }
{
    Stmt::If(test, body, arms, others, line)
}

/// `elseif test then body`
pub fn arm(test: Expr, body: Items<Stmt>) -> Arm
    ensures { result ≡ record { test = test; body = body } }
{
    Arm { test, body }
}

/// `while test do body end`
pub fn while_do(test: Expr, body: Items<Stmt>, line: u32) -> Stmt
    ensures { result ≡ Stmt.While test body line }
{
    Stmt::While(test, body, line)
}

/// `for name: shape in over do body end`
pub fn for_do(name: Text, shape: Shape, over: Iter, body: Items<Stmt>, line: u32) -> Stmt
    ensures { result ≡ Stmt.For name shape over body line }
{
    Stmt::For(name, shape, over, body, line)
}

/// `int$from_to(first, last)`
pub fn from_to(first: Expr, last: Expr, line: u32) -> Iter
    ensures { result ≡ Iter.FromTo first last line }
{
    Iter::FromTo(first, last, line)
}

/// `shape$elements(array)`
pub fn elements(shape: Shape, array: Expr, line: u32) -> Iter
    ensures { result ≡ Iter.Elements shape array line }
{
    Iter::Elements(shape, array, line)
}

/// `tagcase value arms others: others end`
pub fn tagcase(value: Expr, arms: Items<TagArm>, others: Option<Items<Stmt>>, line: u32) -> Stmt
    ensures { result ≡ Stmt.Tagcase value arms others line }
{
    Stmt::Tagcase(value, arms, others, line)
}

/// `tag tag (variable): body`
pub fn tag_arm(tag: Text, variable: Option<Named>, body: Items<Stmt>, meant: Meant) -> TagArm
    ensures { result ≡ record { tag = tag; variable = variable; body = body; meant = meant } }
{
    TagArm {
        tag,
        variable,
        body,
        meant,
    }
}

/// `begin body end`
pub fn begin(body: Items<Stmt>, line: u32) -> Stmt
    ensures { result ≡ Stmt.Begin body line }
{
    Stmt::Begin(body, line)
}

/// `region lock do body end`
pub fn region(lock: Expr, body: Items<Stmt>, line: u32) -> Stmt
    ensures { result ≡ Stmt.Region lock body line }
{
    Stmt::Region(lock, body, line)
}

/// `body except handlers end`
pub fn except(alloc: Global, body: Stmt, handlers: Handlers) -> Result<Stmt, AllocError>
    ensures { IfOk result (λ x. x ≡ Stmt.Except body handlers) }
{
    match Boxed::new(alloc, body) {
        Ok(body) => Ok(Stmt::Except(body, handlers)),
        Err(e) => {
            drop(handlers);
            Err(e)
        }
    }
}

/// The handlers of an `except`.
pub fn handlers(whens: Items<When>, others: Option<Items<Stmt>>) -> Handlers
    ensures { out-Handlers result ≡ record { whens = whens; others = others } }
{
    Handlers { whens, others }
}

/// `when names (variable): body`
pub fn when(names: Items<Text>, variable: Option<Named>, body: Items<Stmt>) -> When
    ensures { result ≡ record { names = names; variable = variable; body = body } }
{
    When {
        names,
        variable,
        body,
    }
}

/// `body resignal names`
pub fn resignal(alloc: Global, body: Stmt, names: Items<Text>) -> Result<Stmt, AllocError>
    ensures { IfOk result (λ x. x ≡ Stmt.Resignal body names) }
{
    match Boxed::new(alloc, body) {
        Ok(body) => Ok(Stmt::Resignal(body, names)),
        Err(e) => {
            drop(names);
            Err(e)
        }
    }
}
