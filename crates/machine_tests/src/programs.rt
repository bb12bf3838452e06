//! The parts of the tests' programs, with `meant` filled by hand.
ghost use Rattle.std.specs.Prelude.{◌≡◌, ◌∷◌, [], Some, None, codes};
ghost use Rattle.machine_rules.specs.Examples as of;
ghost use Rattle.machine_tests.specs.Programs as more;

use crate::trees::{
    binary, bytes, call, declares, init, int, line, local, minus, named, named_type, one,
    operation, routine, says, sets, shown, string, text, three, truth, two, unset,
};
use clu_tree::{Arm, Expr, Infix, Meant, Op, Routine, Shape, Stmt, TagArm, Text, make};
use sqlite_items::Items;
use std::process::Abort;

// ---- numbers and an array

/// `sleep(ms) put_line("up")`
pub fn nap_body(rt: &(impl Abort + AllocGlobal), ms: i64) -> Items<Stmt>
    ensures { result ≡ of.nap_body ms }
{
    let up = text(rt, b"up");
    two(rt, make::sleep(int(ms), 2), up)
}

/// `put_line(int$unparse(-7 op 2))`
fn divided(rt: &(impl Abort + AllocGlobal), op: Infix, does: Op) -> Stmt
    ensures { result ≡ of.divided op does }
{
    let seven = minus(rt, 7);
    let quotient = binary(rt, seven, op, int(2), does);
    shown(rt, quotient)
}

/// `put_line(int$unparse(x)) except when name: put_line("name") end`
fn guarded(rt: &(impl Abort + AllocGlobal), x: Expr, name: &[u8]) -> Stmt
    ensures { result ≡ of.guarded x name.now }
{
    let stmt = shown(rt, x);
    let handlers = says(rt, name);
    make::except(rt.alloc(), stmt, handlers).expect(rt, "memory")
}

/// `-9223372036854775807 - 1`
fn least(rt: &(impl Abort + AllocGlobal)) -> Expr
    ensures { result ≡ of.least }
{
    let near = minus(rt, 9_223_372_036_854_775_807);
    binary(rt, near, Infix::Sub, int(1), Op::IntSub)
}

/// The least int divided by -1.
fn wide(rt: &(impl Abort + AllocGlobal)) -> Stmt
    ensures { result ≡ of.wide }
{
    let dividend = least(rt);
    let divisor = minus(rt, 1);
    let quotient = binary(rt, dividend, Infix::Div, divisor, Op::IntDiv);
    guarded(rt, quotient, b"overflow")
}

/// A quotient, a remainder, and a quotient that no int is.
pub fn three_quotients(rt: &(impl Abort + AllocGlobal)) -> Items<Stmt>
    ensures { result ≡ of.three_quotients }
{
    let quotient = divided(rt, Infix::Div, Op::IntDiv);
    let remainder = divided(rt, Infix::Mod, Op::IntMod);
    let wide = wide(rt);
    three(rt, quotient, remainder, wide)
}

/// `array[int]`
fn ints(rt: &(impl Abort + AllocGlobal)) -> Shape
    ensures { result ≡ of.ints }
{
    make::array_of(rt.alloc(), Shape::Int).expect(rt, "memory")
}

/// `a: array[int] := array[int]$[5, 6]`
fn both(rt: &(impl Abort + AllocGlobal)) -> Stmt
    ensures { result ≡ of.both }
{
    let items = two(rt, int(5), int(6));
    let first = make::array_literal(ints(rt), items, 2, Meant::Unknown);
    let shape = ints(rt);
    declares(rt, b"a", shape, first)
}

/// An array, and an element that it hasn't.
pub fn array_and_third(rt: &(impl Abort + AllocGlobal)) -> Items<Stmt>
    ensures { result ≡ of.both ∷ of.third ∷ [] }
{
    let both = both(rt);
    let array = local(rt, b"a");
    let element = make::index(rt.alloc(), array, int(3), 2, Meant::Op(Op::ArrFetch)).expect(
        rt, "memory",
    );
    let third = guarded(rt, element, b"bounds");
    two(rt, both, third)
}

/// `a[2] := 7`
fn changed(rt: &(impl Abort + AllocGlobal)) -> Stmt
    ensures { result ≡ of.changed }
{
    let array = local(rt, b"a");
    let target = make::to_index(array, int(2), 2, Meant::Op(Op::ArrStore));
    make::assign(target, int(7), 2)
}

/// `for i: int in array[int]$elements(a) do body end`
fn over_array(rt: &(impl Abort + AllocGlobal), body: Items<Stmt>) -> Stmt
    ensures { result ≡ of.over_array body }
{
    let array = local(rt, b"a");
    let over = make::elements(ints(rt), array, 2);
    make::for_do(bytes(rt, b"i"), Shape::Int, over, body, 2)
}

/// `put_line(int$unparse(i))`
fn element_shown(rt: &(impl Abort + AllocGlobal)) -> Stmt
    ensures { result ≡ of.shown (of.local (codes "i")) }
{
    let i = local(rt, b"i");
    shown(rt, i)
}

/// An array is changed, and its elements are printed.
pub fn array_loop(rt: &(impl Abort + AllocGlobal)) -> Items<Stmt>
    ensures { result ≡ of.array_loop }
{
    let both = both(rt);
    let changed = changed(rt);
    let body = one(rt, element_shown(rt));
    let all_shown = over_array(rt, body);
    three(rt, both, changed, all_shown)
}

/// A loop over an array that loses its last element in each turn.
pub fn shrinking(rt: &(impl Abort + AllocGlobal)) -> Items<Stmt>
    ensures { result ≡ more.shrinking }
{
    let both = both(rt);
    let args = one(rt, local(rt, b"a"));
    let shape = ints(rt);
    let call = operation(rt, shape, b"remh", args, Op::ArrRemh);
    let shown = element_shown(rt);
    let body = two(rt, make::call_stmt(call, 2), shown);
    let all = over_array(rt, body);
    two(rt, both, all)
}

/// `for i: int in int$from_to(1, 2) do put_line(int$unparse(i)) end`, and the time.
pub fn numbers(rt: &(impl Abort + AllocGlobal)) -> Items<Stmt>
    ensures { result ≡ more.numbers }
{
    let body = one(rt, element_shown(rt));
    let over = make::from_to(int(1), int(2), 2);
    let turns = make::for_do(bytes(rt, b"i"), Shape::Int, over, body, 2);
    let now = shown(rt, make::now(2));
    two(rt, turns, now)
}

// ---- the other operations of arrays

/// `array[int]$name(a)`
fn on_a(rt: &(impl Abort + AllocGlobal), name: &[u8], does: Op) -> Expr
    ensures { result ≡ more.on_a name.now does }
{
    let args = one(rt, local(rt, b"a"));
    let shape = ints(rt);
    operation(rt, shape, name, args, does)
}

/// `array[int]$name(a, number)`
fn adds_to_a(rt: &(impl Abort + AllocGlobal), name: &[u8], number: i64, does: Op) -> Stmt
    ensures { result ≡ more.adds_to_a name.now number does }
{
    let args = two(rt, local(rt, b"a"), int(number));
    let shape = ints(rt);
    let call = operation(rt, shape, name, args, does);
    make::call_stmt(call, 2)
}

/// `a: array[int] := array[int]$create(0)`
fn made_empty(rt: &(impl Abort + AllocGlobal)) -> Stmt
    ensures { result ≡ more.made_empty }
{
    let args = one(rt, int(0));
    let shape = ints(rt);
    let empty = operation(rt, shape, b"create", args, Op::ArrCreate);
    let shape = ints(rt);
    declares(rt, b"a", shape, empty)
}

/// An array that begins empty grows at both ends.
pub fn growing(rt: &(impl Abort + AllocGlobal)) -> Items<Stmt>
    ensures { result ≡ more.growing }
{
    let made = made_empty(rt);
    let high = adds_to_a(rt, b"addh", 5, Op::ArrAddh);
    let low = adds_to_a(rt, b"addl", 4, Op::ArrAddl);
    three(rt, made, high, low)
}

/// `put_line(int$unparse(array[int]$name(a) + array[int]$other(a)))`
fn sum_shown(rt: &(impl Abort + AllocGlobal), name: &[u8], does: Op, other: &[u8], also: Op) -> Stmt
    ensures { result ≡ more.sum_shown name.now does other.now also }
{
    let first = on_a(rt, name, does);
    let second = on_a(rt, other, also);
    let sum = binary(rt, first, Infix::Add, second, Op::IntAdd);
    shown(rt, sum)
}

/// The sum of its low and size, and that of its last and first element.
pub fn showing(rt: &(impl Abort + AllocGlobal)) -> Items<Stmt>
    ensures { result ≡ more.showing }
{
    let bounds = sum_shown(rt, b"low", Op::ArrLow, b"size", Op::ArrSize);
    let ends = sum_shown(rt, b"top", Op::ArrTop, b"bottom", Op::ArrBottom);
    two(rt, bounds, ends)
}

/// `a = array[int]$new()`
fn is_new(rt: &(impl Abort + AllocGlobal)) -> Expr
    ensures { result ≡ more.is_new }
{
    let shape = ints(rt);
    let made = operation(rt, shape, b"new", Items::new(rt.alloc()), Op::ArrNew);
    let a = local(rt, b"a");
    binary(rt, a, Infix::Equal, made, Op::ArrEqual)
}

/// `if a = array[int]$new() then put_line("same") else put_line("other") end`
fn compared(rt: &(impl Abort + AllocGlobal)) -> Stmt
    ensures { result ≡ more.compared }
{
    let test = is_new(rt);
    let same = line(rt, b"same");
    let other = line(rt, b"other");
    make::if_then(test, same, Items::new(rt.alloc()), Some(other), 2)
}

/// It loses its first element, and is compared with a new one.
pub fn losing(rt: &(impl Abort + AllocGlobal)) -> Items<Stmt>
    ensures { result ≡ more.losing }
{
    let call = on_a(rt, b"reml", Op::ArrReml);
    let high = on_a(rt, b"high", Op::ArrHigh);
    let high = shown(rt, high);
    let compared = compared(rt);
    three(rt, make::call_stmt(call, 2), high, compared)
}

// ---- choices

/// `while n < 2 do n := n + 1 end`
fn counted(rt: &(impl Abort + AllocGlobal)) -> Stmt
    ensures { result ≡ more.counted }
{
    let n = local(rt, b"n");
    let test = binary(rt, n, Infix::Lt, int(2), Op::IntLt);
    let n = local(rt, b"n");
    let sum = binary(rt, n, Infix::Add, int(1), Op::IntAdd);
    let body = one(rt, sets(rt, b"n", sum));
    make::while_do(test, body, 2)
}

/// `n = number`
fn is_number(rt: &(impl Abort + AllocGlobal), number: i64) -> Expr
    ensures { result ≡ more.is_number number }
{
    let n = local(rt, b"n");
    binary(rt, n, Infix::Equal, int(number), Op::IntEqual)
}

/// `elseif n = 2 then put_line("two")`
fn is_two(rt: &(impl Abort + AllocGlobal)) -> Arm
    ensures { result ≡ more.is_two }
{
    let test = is_number(rt, 2);
    let body = line(rt, b"two");
    make::arm(test, body)
}

/// A choice of three by `n`.
fn chosen(rt: &(impl Abort + AllocGlobal)) -> Stmt
    ensures { result ≡ more.chosen }
{
    let arms = one(rt, is_two(rt));
    let test = is_number(rt, 1);
    let body = line(rt, b"one");
    let others = line(rt, b"more");
    make::if_then(test, body, arms, Some(others), 2)
}

/// `n: int := 0`, a loop that counts to 2, and a choice by `n`.
pub fn counting(rt: &(impl Abort + AllocGlobal)) -> Items<Stmt>
    ensures { result ≡ more.counting }
{
    let n = declares(rt, b"n", Shape::Int, int(0));
    let counted = counted(rt);
    let chosen = chosen(rt);
    three(rt, n, counted, chosen)
}

/// `value op b`, which never looks at `b`.
fn unseen(rt: &(impl Abort + AllocGlobal), value: bool, op: Infix) -> Expr
    ensures { result ≡ more.unseen value op }
{
    let b = local(rt, b"b");
    make::binary(rt.alloc(), truth(value), op, b, 2, Meant::Unknown).expect(rt, "memory")
}

/// `elseif true cor b then begin put_line("cor") end`
fn either(rt: &(impl Abort + AllocGlobal)) -> Arm
    ensures { result ≡ more.either }
{
    let test = unseen(rt, true, Infix::Cor);
    let block = line(rt, b"cor");
    let body = one(rt, make::begin(block, 2));
    make::arm(test, body)
}

/// `b: bool`, and a choice that never looks at it.
pub fn choosing(rt: &(impl Abort + AllocGlobal)) -> Items<Stmt>
    ensures { result ≡ more.choosing }
{
    let arms = one(rt, either(rt));
    let test = unseen(rt, false, Infix::Cand);
    let body = line(rt, b"cand");
    let chosen = make::if_then(test, body, arms, None, 2);
    let b = unset(rt, b"b", Shape::Bool);
    two(rt, b, chosen)
}

// ---- records, oneofs, strings

/// `r: pair := pair${x: 1, y: 2}`
fn pair_made(rt: &(impl Abort + AllocGlobal)) -> Stmt
    ensures { result ≡ more.made }
{
    let x = init(rt, b"x", int(1));
    let y = init(rt, b"y", int(2));
    let fields = two(rt, x, y);
    let pair = make::record_literal(named_type(rt, b"pair"), fields, 2, Meant::Unknown);
    let shape = named_type(rt, b"pair");
    declares(rt, b"r", shape, pair)
}

/// `r.y := 5`
fn field_set(rt: &(impl Abort + AllocGlobal)) -> Stmt
    ensures { result ≡ more.field_set }
{
    let r = local(rt, b"r");
    let target = make::to_field(r, bytes(rt, b"y"), 2, Meant::Field(1));
    make::assign(target, int(5), 2)
}

/// `owner.name`, the field at this place.
fn field(rt: &(impl Abort + AllocGlobal), owner: Expr, name: &[u8], place: u16) -> Expr
    ensures { result ≡ more.field owner name.now place }
{
    let name = bytes(rt, name);
    make::field(rt.alloc(), owner, name, 2, Meant::Field(place)).expect(rt, "memory")
}

/// `up(down(r))`
fn up_and_down(rt: &(impl Abort + AllocGlobal)) -> Expr
    ensures { result ≡ more.up_and_down }
{
    let r = local(rt, b"r");
    let down = make::down(rt.alloc(), r, 2).expect(rt, "memory");
    make::up(rt.alloc(), down, 2).expect(rt, "memory")
}

/// `put_line(int$unparse(up(down(r)).x + r.y))`
fn fields_shown(rt: &(impl Abort + AllocGlobal)) -> Stmt
    ensures { result ≡ more.fields_shown }
{
    let owner = up_and_down(rt);
    let x = field(rt, owner, b"x", 0);
    let r = local(rt, b"r");
    let y = field(rt, r, b"y", 1);
    let sum = binary(rt, x, Infix::Add, y, Op::IntAdd);
    shown(rt, sum)
}

/// A record is made, changed and read.
pub fn fields(rt: &(impl Abort + AllocGlobal)) -> Items<Stmt>
    ensures { result ≡ more.fields }
{
    let made = pair_made(rt);
    let set = field_set(rt);
    let shown = fields_shown(rt);
    three(rt, made, set, shown)
}

/// `v: choice := choice$make_b(7)`
fn tagged(rt: &(impl Abort + AllocGlobal)) -> Stmt
    ensures { result ≡ more.tagged }
{
    let args = one(rt, int(7));
    let name = bytes(rt, b"make_b");
    let made = make::operation(named_type(rt, b"choice"), name, args, 2, Meant::Tag(1));
    let shape = named_type(rt, b"choice");
    declares(rt, b"v", shape, made)
}

/// `tag a:`
fn arm_a(rt: &(impl Abort + AllocGlobal)) -> TagArm
    ensures { result ≡ more.arm_a }
{
    let tag = bytes(rt, b"a");
    make::tag_arm(tag, None, Items::new(rt.alloc()), Meant::Tag(0))
}

/// `tag b (n: int): put_line(int$unparse(n))`
fn arm_b(rt: &(impl Abort + AllocGlobal)) -> TagArm
    ensures { result ≡ more.arm_b }
{
    let n = local(rt, b"n");
    let body = one(rt, shown(rt, n));
    let variable = named(rt, b"n", Shape::Int);
    let tag = bytes(rt, b"b");
    make::tag_arm(tag, Some(variable), body, Meant::Tag(1))
}

/// A choice by its tag, with an arm for each.
fn by_arm(rt: &(impl Abort + AllocGlobal)) -> Stmt
    ensures { result ≡ more.by_tag (more.arm_a ∷ more.arm_b ∷ []) None }
{
    let first = arm_a(rt);
    let second = arm_b(rt);
    let arms = two(rt, first, second);
    make::tagcase(local(rt, b"v"), arms, None, 2)
}

/// A choice by its tag, which none of the arms has.
fn by_others(rt: &(impl Abort + AllocGlobal)) -> Stmt
    ensures { result ≡ more.by_tag (more.arm_a ∷ []) (Some (of.text (codes "others") ∷ [])) }
{
    let others = line(rt, b"others");
    let arms = one(rt, arm_a(rt));
    make::tagcase(local(rt, b"v"), arms, Some(others), 2)
}

/// A oneof, and two choices by its tag.
pub fn tags(rt: &(impl Abort + AllocGlobal)) -> Items<Stmt>
    ensures { result ≡ more.tags }
{
    let tagged = tagged(rt);
    let by_arm = by_arm(rt);
    let by_others = by_others(rt);
    three(rt, tagged, by_arm, by_others)
}

/// `put_line(string$append("ab", string$fetch("xyz", 3)))`
fn joined(rt: &(impl Abort + AllocGlobal)) -> Stmt
    ensures { result ≡ more.joined }
{
    let args = two(rt, string(rt, b"xyz"), int(3));
    let last = operation(rt, Shape::Str, b"fetch", args, Op::StrFetch);
    let args = two(rt, string(rt, b"ab"), last);
    let line = operation(rt, Shape::Str, b"append", args, Op::StrAppend);
    make::put_line(line, 2)
}

/// A string of parts, and the code of a char.
pub fn strings(rt: &(impl Abort + AllocGlobal)) -> Items<Stmt>
    ensures { result ≡ more.strings }
{
    let joined = joined(rt);
    let args = one(rt, make::char_literal(65, 2));
    let code = operation(rt, Shape::Char, b"c2i", args, Op::CharC2i);
    let code = shown(rt, code);
    two(rt, joined, code)
}

// ---- routines

/// `add = proc (a: int, b: int) returns (int) return (a + b) end add`
pub fn adds(rt: &(impl Abort + AllocGlobal)) -> Routine
    ensures { result ≡ of.adds }
{
    let a = local(rt, b"a");
    let b = local(rt, b"b");
    let sum = binary(rt, a, Infix::Add, b, Op::IntAdd);
    let body = one(rt, make::return_value(Some(sum), 2));
    let first = named(rt, b"a", Shape::Int);
    let params = two(rt, first, named(rt, b"b", Shape::Int));
    routine(rt, b"add", params, Some(Shape::Int), body)
}

/// `put_line(int$unparse(add(2, 3)))`
pub fn added(rt: &(impl Abort + AllocGlobal)) -> Stmt
    ensures { result ≡ of.added }
{
    let args = two(rt, int(2), int(3));
    let sum = call(rt, b"add", args, 1);
    shown(rt, sum)
}

/// `make = proc (n: int) returns (cvt) return (rep${n: n}) end make`
pub fn makes(rt: &(impl Abort + AllocGlobal)) -> Routine
    ensures { result ≡ more.make }
{
    let n = local(rt, b"n");
    let fields = one(rt, init(rt, b"n", n));
    let made = make::record_literal(Shape::Rep, fields, 2, Meant::Unknown);
    let body = one(rt, make::return_value(Some(made), 2));
    let params = one(rt, named(rt, b"n", Shape::Int));
    routine(rt, b"make", params, Some(Shape::Cvt), body)
}

/// `get = proc (c: cvt) returns (int) return (c.n) end get`
pub fn gets(rt: &(impl Abort + AllocGlobal)) -> Routine
    ensures { result ≡ more.get }
{
    let c = local(rt, b"c");
    let n = field(rt, c, b"n", 0);
    let body = one(rt, make::return_value(Some(n), 2));
    let params = one(rt, named(rt, b"c", Shape::Cvt));
    routine(rt, b"get", params, Some(Shape::Int), body)
}

/// `counter$name(x)`, of the routine at this place.
fn counter(rt: &(impl Abort + AllocGlobal), name: &[u8], x: Expr, place: u16) -> Expr
    ensures { result ≡ more.counter name.now x place }
{
    let args = one(rt, x);
    let shape = named_type(rt, b"counter");
    let name = bytes(rt, name);
    make::operation(shape, name, args, 2, Meant::Routine(place))
}

/// `put_line(int$unparse(counter$get(counter$make(4))))`
pub fn counter_shown(rt: &(impl Abort + AllocGlobal)) -> Stmt
    ensures { result ≡ more.counter_shown }
{
    let made = counter(rt, b"make", int(4), 1);
    let got = counter(rt, b"get", made, 2);
    shown(rt, got)
}
