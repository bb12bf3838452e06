//! Expressions, with how deep each is. What has more than `depth` levels is a `Syntax` at the next token.
#![tactic(auto, using(crate::proofs::Nodes::nodes), unfolding(clu_grammar::specs::ExprPlan::within))]

ghost use Rattle.std.specs.Prelude.{◌≡◌, ◌+◌, max, List, [], ◌∷◌, ◌++◌, map, ◌≤◌, ◌<◌, ◌^◌, IfOk, OnOk};
ghost use Rattle.clu_grammar.specs.Nesting.{expr_nesting, init_nesting, deepest};
ghost use Rattle.clu_grammar.specs.ExprPlan.{expr_within, init_of};
ghost use Rattle.clu_grammar.specs.Grammar.{joined};
ghost use Rattle.clu_expr_reader.specs.Gives.{Gives};

use crate::cursor::Cursor;
use crate::fault::ReadFault;
use crate::key::infix_of;
use crate::types::SizedShape;
use clu_tree::{Expr, FieldInit, Infix, Key, Meant, Prefix, Text, Value};
use sqlite_items::{Boxed, Items};
use std::alloc::{AllocError, Global};

/// An expression, with the number of its levels.
#[derive(Drop)]
pub struct SizedExpr {
    pub expr: Boxed<Expr>,
    pub height: u32,
    ghost nests: { height ≡ expr_nesting expr },
    ghost small: { height ≤ 200 },
}

/// Expressions, with the number of the levels of the deepest.
#[derive(Drop)]
pub struct SizedExprs {
    pub items: Items<Expr>,
    pub height: u32,
    ghost nests: { height ≡ deepest (map expr_nesting items) },
    ghost small: { height ≤ 200 },
}

/// Fields with their values, with the number of the levels of the deepest.
#[derive(Drop)]
pub struct SizedInits {
    pub inits: Items<FieldInit>,
    pub height: u32,
    ghost nests: { height ≡ deepest (map init_nesting inits) },
    ghost small: { height ≤ 200 },
}

impl SizedExprs {
    /// No expressions.
    pub fn new(alloc: Global) -> SizedExprs
        ensures { result.items ≡ [] }
    {
        SizedExprs {
            items: Items::new(alloc),
            height: 0,
        }
    }

    /// Puts an expression behind the others.
    #[tactic(auto, using(crate::proofs::Nodes::pushes))]
    pub fn push(&mut self, last: SizedExpr) -> Result<(), AllocError>
        ensures { OnOk result (self.new.items ≡ self.old.items ++ last.expr ∷ []) }
    {
        self.items.push(last.expr.into_inner())?;
        self.height = self.height.max(last.height);
        Ok(())
    }
}

impl SizedInits {
    /// No fields.
    pub fn new(alloc: Global) -> SizedInits
        ensures { result.inits ≡ [] }
    {
        SizedInits {
            inits: Items::new(alloc),
            height: 0,
        }
    }

    /// Puts a field with its value behind the others.
    #[tactic(auto, using(crate::proofs::Nodes::pushes))]
    pub fn push(&mut self, name: Text, last: SizedExpr) -> Result<(), AllocError>
        ensures { OnOk result (self.new.inits ≡ self.old.inits ++ init_of name last.expr ∷ []) }
    {
        self.inits.push(FieldInit {
            name,
            value: last.expr.into_inner(),
        })?;
        self.height = self.height.max(last.height);
        Ok(())
    }
}

/// The expression, which has so many levels, if those are at most `depth`.
pub fn fit(
    alloc: Global,
    cursor: &Cursor<'_>,
    depth: u32,
    expr: Expr,
    height: u32,
) -> Result<SizedExpr, ReadFault>
    requires nests { height ≡ expr_nesting expr }
    requires small { depth ≤ 200 }
    ensures { Gives (λ x. x.expr) result cursor.now (expr_within depth expr cursor.now) }
{
    if height > depth {
        return Err(ReadFault::Syntax(cursor.line()));
    }
    let expr = Boxed::new(alloc, expr)?;
    Ok(SizedExpr { expr, height })
}

/// A literal, if `depth` allows its one level.
pub fn literal(
    alloc: Global,
    cursor: &Cursor<'_>,
    depth: u32,
    value: Value,
    line: u32,
) -> Result<SizedExpr, ReadFault>
    requires { depth ≤ 200 }
    ensures { Gives (λ x. x.expr) result cursor.now (expr_within depth (Expr.Literal value line) cursor.now) }
{
    fit(alloc, cursor, depth, Expr::Literal(value, line), 1)
}

/// A name, if `depth` allows its one level.
pub fn name(
    alloc: Global,
    cursor: &Cursor<'_>,
    depth: u32,
    text: Text,
    line: u32,
) -> Result<SizedExpr, ReadFault>
    requires { depth ≤ 200 }
    ensures { Gives (λ x. x.expr) result cursor.now (expr_within depth (Expr.Name text line Meant.Unknown) cursor.now) }
{
    fit(
        alloc,
        cursor,
        depth,
        Expr::Name(text, line, Meant::Unknown),
        1,
    )
}

/// `now()`, if `depth` allows its one level.
pub fn now(
    alloc: Global,
    cursor: &Cursor<'_>,
    depth: u32,
    line: u32,
) -> Result<SizedExpr, ReadFault>
    requires { depth ≤ 200 }
    ensures { Gives (λ x. x.expr) result cursor.now (expr_within depth (Expr.Now line) cursor.now) }
{
    fit(alloc, cursor, depth, Expr::Now(line), 1)
}

/// A call of a routine, if it has at most `depth` levels.
pub fn call(
    alloc: Global,
    cursor: &Cursor<'_>,
    depth: u32,
    name: Text,
    args: SizedExprs,
    line: u32,
) -> Result<SizedExpr, ReadFault>
    requires { depth ≤ 200 }
    ensures { Gives (λ x. x.expr) result cursor.now (expr_within depth (Expr.Call name args.items line Meant.Unknown) cursor.now) }
{
    let height = 1 + args.height;
    let node = Expr::Call(name, args.items, line, Meant::Unknown);
    fit(alloc, cursor, depth, node, height)
}

/// `T$op(..)`, if it has at most `depth` levels.
pub fn operation(
    alloc: Global,
    cursor: &Cursor<'_>,
    depth: u32,
    of: SizedShape,
    name: Text,
    args: SizedExprs,
    line: u32,
) -> Result<SizedExpr, ReadFault>
    requires { depth ≤ 200 }
    ensures { Gives (λ x. x.expr) result cursor.now (expr_within depth (Expr.Op of.shape name args.items line Meant.Unknown) cursor.now) }
{
    let height = 1 + of.height.max(args.height);
    let node = Expr::Op(of.shape, name, args.items, line, Meant::Unknown);
    fit(alloc, cursor, depth, node, height)
}

/// `T${..}`, if it has at most `depth` levels.
pub fn record_of(
    alloc: Global,
    cursor: &Cursor<'_>,
    depth: u32,
    of: SizedShape,
    inits: SizedInits,
    line: u32,
) -> Result<SizedExpr, ReadFault>
    requires { depth ≤ 200 }
    ensures { Gives (λ x. x.expr) result cursor.now (expr_within depth (Expr.Record of.shape inits.inits line Meant.Unknown) cursor.now) }
{
    let height = 1 + of.height.max(inits.height);
    let node = Expr::Record(of.shape, inits.inits, line, Meant::Unknown);
    fit(alloc, cursor, depth, node, height)
}

/// `T$[..]`, if it has at most `depth` levels.
pub fn array_of(
    alloc: Global,
    cursor: &Cursor<'_>,
    depth: u32,
    of: SizedShape,
    items: SizedExprs,
    line: u32,
) -> Result<SizedExpr, ReadFault>
    requires { depth ≤ 200 }
    ensures { Gives (λ x. x.expr) result cursor.now (expr_within depth (Expr.Array of.shape items.items line Meant.Unknown) cursor.now) }
{
    let height = 1 + of.height.max(items.height);
    let node = Expr::Array(of.shape, items.items, line, Meant::Unknown);
    fit(alloc, cursor, depth, node, height)
}

/// An operator before its operand, if it has at most `depth` levels.
pub fn unary(
    alloc: Global,
    cursor: &Cursor<'_>,
    depth: u32,
    op: Prefix,
    of: SizedExpr,
    line: u32,
) -> Result<SizedExpr, ReadFault>
    requires { depth ≤ 200 }
    ensures { Gives (λ x. x.expr) result cursor.now (expr_within depth (Expr.Unary op of.expr line Meant.Unknown) cursor.now) }
{
    let height = 1 + of.height;
    let node = Expr::Unary(op, of.expr, line, Meant::Unknown);
    fit(alloc, cursor, depth, node, height)
}

/// `up(..)`, if it has at most `depth` levels.
pub fn up(
    alloc: Global,
    cursor: &Cursor<'_>,
    depth: u32,
    of: SizedExpr,
    line: u32,
) -> Result<SizedExpr, ReadFault>
    requires { depth ≤ 200 }
    ensures { Gives (λ x. x.expr) result cursor.now (expr_within depth (Expr.Up of.expr line) cursor.now) }
{
    let height = 1 + of.height;
    let node = Expr::Up(of.expr, line);
    fit(alloc, cursor, depth, node, height)
}

/// `down(..)`, if it has at most `depth` levels.
pub fn down(
    alloc: Global,
    cursor: &Cursor<'_>,
    depth: u32,
    of: SizedExpr,
    line: u32,
) -> Result<SizedExpr, ReadFault>
    requires { depth ≤ 200 }
    ensures { Gives (λ x. x.expr) result cursor.now (expr_within depth (Expr.Down of.expr line) cursor.now) }
{
    let height = 1 + of.height;
    let node = Expr::Down(of.expr, line);
    fit(alloc, cursor, depth, node, height)
}

/// A field of an expression, if it has at most `depth` levels.
pub fn field(
    alloc: Global,
    cursor: &Cursor<'_>,
    depth: u32,
    of: SizedExpr,
    name: Text,
    line: u32,
) -> Result<SizedExpr, ReadFault>
    requires { depth ≤ 200 }
    ensures { Gives (λ x. x.expr) result cursor.now (expr_within depth (Expr.Field of.expr name line Meant.Unknown) cursor.now) }
{
    let height = 1 + of.height;
    let node = Expr::Field(of.expr, name, line, Meant::Unknown);
    fit(alloc, cursor, depth, node, height)
}

/// An element of an expression, if it has at most `depth` levels.
pub fn index(
    alloc: Global,
    cursor: &Cursor<'_>,
    depth: u32,
    of: SizedExpr,
    at: SizedExpr,
    line: u32,
) -> Result<SizedExpr, ReadFault>
    requires { depth ≤ 200 }
    ensures { Gives (λ x. x.expr) result cursor.now (expr_within depth (Expr.Index of.expr at.expr line Meant.Unknown) cursor.now) }
{
    let height = 1 + of.height.max(at.height);
    let node = Expr::Index(of.expr, at.expr, line, Meant::Unknown);
    fit(alloc, cursor, depth, node, height)
}

fn binary(left: Boxed<Expr>, op: Infix, right: Boxed<Expr>, line: u32) -> Expr
    ensures { result ≡ Expr.Binary left op right line Meant.Unknown }
{
    Expr::Binary(left, op, right, line, Meant::Unknown)
}

/// Two operands with the symbol between them, if they have at most `depth` levels. `a ~= b` is `~(a = b)`, two levels.
pub fn join(
    alloc: Global,
    cursor: &Cursor<'_>,
    depth: u32,
    key: Key,
    left: SizedExpr,
    right: SizedExpr,
    line: u32,
) -> Result<SizedExpr, ReadFault>
    requires { depth ≤ 200 }
    ensures { Gives (λ x. x.expr) result cursor.now (expr_within depth (joined key left.expr right.expr line) cursor.now) }
{
    let height = 1 + left.height.max(right.height);
    match key {
        Key::Differs => {
            let equal = binary(left.expr, Infix::Equal, right.expr, line);
            let equal = Boxed::new(alloc, equal)?;
            let node = Expr::Unary(Prefix::Not, equal, line, Meant::Unknown);
            fit(alloc, cursor, depth, node, height + 1)
        }
        other => {
            let node = binary(left.expr, infix_of(other), right.expr, line);
            fit(alloc, cursor, depth, node, height)
        }
    }
}
