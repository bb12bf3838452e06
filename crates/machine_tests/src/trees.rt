//! Trees from which the programs of the tests are built. Each line of a tree is 2.
ghost use Rattle.std.specs.Prelude.{◌≡◌, ◌∷◌, ◌++◌, []};
ghost use Rattle.machine_rules.specs.Examples as of;
ghost use Rattle.machine_tests.specs.Programs as more;

use clu_tree::{
    Expr, FieldInit, Handlers, Infix, Meant, Named, Op, Prefix, Program, Routine, Shape, Stmt,
    Text, When, make,
};
use sqlite_items::Items;
use std::process::Abort;

pub fn bytes(rt: &(impl Abort + AllocGlobal), bytes: &[u8]) -> Text
    ensures { result ≡ bytes.now }
{
    Text::from_slice(rt.alloc(), bytes).expect(rt, "memory")
}

pub fn one<T: Drop>(rt: &(impl Abort + AllocGlobal), item: T) -> Items<T>
    ensures { result ≡ item ∷ [] }
{
    let mut items = Items::new(rt.alloc());
    items.push(item).expect(rt, "memory");
    items
}

pub fn two<T: Drop>(rt: &(impl Abort + AllocGlobal), first: T, second: T) -> Items<T>
    ensures { result ≡ first ∷ second ∷ [] }
{
    let mut items = one(rt, first);
    items.push(second).expect(rt, "memory");
    items
}

pub fn three<T: Drop>(rt: &(impl Abort + AllocGlobal), first: T, second: T, third: T) -> Items<T>
    ensures { result ≡ first ∷ second ∷ third ∷ [] }
{
    let mut items = two(rt, first, second);
    items.push(third).expect(rt, "memory");
    items
}

/// The first items, and then the others.
pub fn joined<T: Drop>(
    rt: &(impl Abort + AllocGlobal),
    first: Items<T>,
    others: Items<T>,
) -> Items<T>
    ensures { result ≡ first ++ others }
{
    let mut items = first;
    items.append(others).expect(rt, "memory");
    items
}

// ---- expressions

pub fn int(n: i64) -> Expr
    ensures { result ≡ of.int n }
{
    make::int_literal(n, 2)
}

pub fn truth(b: bool) -> Expr
    ensures { result ≡ of.truth b }
{
    make::bool_literal(b, 2)
}

pub fn string(rt: &(impl Abort + AllocGlobal), content: &[u8]) -> Expr
    ensures { result ≡ more.string content.now }
{
    make::string_literal(bytes(rt, content), 2)
}

/// A variable of the routine.
pub fn local(rt: &(impl Abort + AllocGlobal), name: &[u8]) -> Expr
    ensures { result ≡ of.local name.now }
{
    make::name(bytes(rt, name), 2, Meant::Local)
}

/// `-n`
pub fn minus(rt: &(impl Abort + AllocGlobal), n: i64) -> Expr
    ensures { result ≡ of.minus (of.int n) }
{
    make::unary(
        rt.alloc(),
        Prefix::Minus,
        int(n),
        2,
        Meant::Op(Op::IntMinus),
    )
    .expect(rt, "memory")
}

/// `left op right`
pub fn binary(rt: &(impl Abort + AllocGlobal), left: Expr, op: Infix, right: Expr, does: Op) -> Expr
    ensures { result ≡ more.binary left op right does }
{
    make::binary(rt.alloc(), left, op, right, 2, Meant::Op(does)).expect(rt, "memory")
}

/// `shape$name(args)`
pub fn operation(
    rt: &(impl Abort + AllocGlobal),
    shape: Shape,
    name: &[u8],
    args: Items<Expr>,
    does: Op,
) -> Expr
    ensures { result ≡ more.operation shape name.now args does }
{
    let name = bytes(rt, name);
    make::operation(shape, name, args, 2, Meant::Op(does))
}

/// `name(args)`, of the routine at this place.
pub fn call(rt: &(impl Abort + AllocGlobal), name: &[u8], args: Items<Expr>, place: u16) -> Expr
    ensures { result ≡ of.call name.now args place }
{
    let name = bytes(rt, name);
    make::call(name, args, 2, Meant::Routine(place))
}

/// `name: value` of a record.
pub fn init(rt: &(impl Abort + AllocGlobal), name: &[u8], value: Expr) -> FieldInit
    ensures { result ≡ more.init name.now value }
{
    make::field_init(bytes(rt, name), value)
}

// ---- types

/// An equate or a cluster.
pub fn named_type(rt: &(impl Abort + AllocGlobal), name: &[u8]) -> Shape
    ensures { result ≡ Shape.Name name.now }
{
    make::named_type(bytes(rt, name))
}

/// `name: shape`
pub fn named(rt: &(impl Abort + AllocGlobal), name: &[u8], shape: Shape) -> Named
    ensures { result ≡ more.named name.now shape }
{
    make::named(bytes(rt, name), shape)
}

// ---- statements

/// `put_line(line)`
pub fn text(rt: &(impl Abort + AllocGlobal), line: &[u8]) -> Stmt
    ensures { result ≡ of.text line.now }
{
    make::put_line(string(rt, line), 2)
}

/// The body `put_line(line)`.
pub fn line(rt: &(impl Abort + AllocGlobal), line: &[u8]) -> Items<Stmt>
    ensures { result ≡ of.text line.now ∷ [] }
{
    one(rt, text(rt, line))
}

/// `put_line(int$unparse(x))`
pub fn shown(rt: &(impl Abort + AllocGlobal), x: Expr) -> Stmt
    ensures { result ≡ of.shown x }
{
    let args = one(rt, x);
    let line = operation(rt, Shape::Int, b"unparse", args, Op::IntUnparse);
    make::put_line(line, 2)
}

/// `name: shape := first`
pub fn declares(rt: &(impl Abort + AllocGlobal), name: &[u8], shape: Shape, first: Expr) -> Stmt
    ensures { result ≡ more.declares name.now shape first }
{
    make::declare(bytes(rt, name), shape, Some(first), 2)
}

/// `name: shape`
pub fn unset(rt: &(impl Abort + AllocGlobal), name: &[u8], shape: Shape) -> Stmt
    ensures { result ≡ more.unset name.now shape }
{
    make::declare(bytes(rt, name), shape, None, 2)
}

/// `name := value`, of a variable of the routine.
pub fn sets(rt: &(impl Abort + AllocGlobal), name: &[u8], value: Expr) -> Stmt
    ensures { result ≡ more.sets name.now value }
{
    let target = make::to_name(bytes(rt, name), 2, Meant::Local);
    make::assign(target, value, 2)
}

/// `except whens others: others end`
pub fn handlers(whens: Items<When>, others: Option<Items<Stmt>>) -> Handlers
    ensures { result ≡ more.handlers whens others }
{
    make::handlers(whens, others)
}

/// `except when name: put_line("name") end`
pub fn says(rt: &(impl Abort + AllocGlobal), name: &[u8]) -> Handlers
    ensures { result ≡ of.says name.now }
{
    let body = line(rt, name);
    let names = one(rt, bytes(rt, name));
    let whens = one(rt, make::when(names, None, body));
    handlers(whens, None)
}

// ---- programs

/// `name = proc (params) returns (result) body end name`
pub fn routine(
    rt: &(impl Abort + AllocGlobal),
    name: &[u8],
    params: Items<Named>,
    returns: Option<Shape>,
    body: Items<Stmt>,
) -> Routine
    ensures { result ≡ of.routine name.now params returns body }
{
    let name = bytes(rt, name);
    make::routine(name, params, returns, Items::new(rt.alloc()), body, 1)
}

/// `p = proc () body end p`, and these routines.
pub fn program(
    rt: &(impl Abort + AllocGlobal),
    body: Items<Stmt>,
    others: Items<Routine>,
) -> Program
    ensures { result ≡ of.program body others }
{
    let mut routines = one(rt, routine(rt, b"p", Items::new(rt.alloc()), None, body));
    routines.append(others).expect(rt, "memory");
    make::program(
        Items::new(rt.alloc()),
        Items::new(rt.alloc()),
        routines,
        Items::new(rt.alloc()),
        Items::new(rt.alloc()),
    )
}
