//! The typing rules, as far as programs run yet. Each part answers the first line that breaks a rule.

ghost use Rattle.std.specs.Prelude.{◌≡◌, ◌≤◌, ◌↔◌, [], None, length, pos, IsTrue, OnOk, OnErr, All};
ghost use Rattle.clu_tree.specs.Typed.{ExprHas, IsTypedStmt, IsTypedPart, IsTypedNode, IsTypedRoutine, HasRoutine, AreNumbered};
ghost use Rattle.clu_tree.specs.declared.shape.Shape.TheVariants as shape;
ghost use Rattle.clu_reader.specs.Accepted.{CanRun};
ghost use Rattle.clu_reader.specs.Judging.{Judges};
ghost use Rattle.clu_reader.specs.Judging as judging;
ghost use Rattle.clu_reader.specs.Parts.{HasTypedNode};

use crate::fault::CheckFault;
use clu_tree::{Expr, NodeDecl, NodePart, Program, Routine, Stmt, Text, Value};

/// Whether the expression is a string.
fn is_string(expr: &Expr) -> bool
    ensures { IsTrue result ↔ ExprHas expr.now shape.Str }
{
    matches!(expr, Expr::Literal(Value::Str(_), _))
}

/// Whether the expression is an int.
fn is_int(expr: &Expr) -> bool
    ensures { IsTrue result ↔ ExprHas expr.now shape.Int }
{
    matches!(expr, Expr::Literal(Value::Int(_), _))
}

/// The earlier of two lines, as far as there are any.
fn earlier(one: Option<u32>, other: Option<u32>) -> Option<u32>
    ensures { result ≡ judging.earlier one other }
{
    match (one, other) {
        (Some(a), Some(b)) => Some(a.min(b)),
        (Some(a), None) => Some(a),
        (None, b) => b,
    }
}

/// The line of a statement, and of the innermost one where others stand round it.
fn line_of(stmt: &Stmt) -> u32 {
    match stmt {
        Stmt::Declare(_, _, _, line)
        | Stmt::Assign(_, _, line)
        | Stmt::Remote(_, _, line, _)
        | Stmt::Call(_, line)
        | Stmt::PutLine(_, line)
        | Stmt::Sleep(_, line)
        | Stmt::Fork(_, _, line, _)
        | Stmt::Return(_, line)
        | Stmt::Signal(_, _, line)
        | Stmt::If(_, _, _, _, line)
        | Stmt::While(_, _, line)
        | Stmt::For(_, _, _, _, line)
        | Stmt::Tagcase(_, _, _, line)
        | Stmt::Begin(_, line)
        | Stmt::Region(_, _, line) => *line,
        Stmt::Except(inner, _) | Stmt::Resignal(inner, _) => line_of(inner.get()),
    }
}

/// Whether the statement is typed and can run yet.
fn is_typed(stmt: &Stmt) -> bool
    ensures { IsTrue result ↔ IsTypedStmt stmt.now }
{
    match stmt {
        Stmt::PutLine(text, _) => is_string(text),
        Stmt::Sleep(time, _) => is_int(time),
        _ => false,
    }
}

fn check_body(statements: &[Stmt]) -> Option<u32>
    ensures { Judges result (All IsTypedStmt statements.now) }
{
    for statement in statements {
        if !is_typed(statement) {
            return Some(line_of(statement));
        }
    }
    None
}

fn check_routine(routine: &Routine) -> Option<u32>
    ensures { Judges result (IsTypedRoutine routine.now) }
{
    if routine.params.is_empty() && routine.result.is_none() && routine.signals.is_empty() {
        check_body(routine.body.as_slice())
    } else {
        Some(routine.line)
    }
}

fn check_routines(routines: &[Routine]) -> Option<u32>
    ensures { Judges result (All IsTypedRoutine routines.now) }
{
    for routine in routines {
        if let Some(line) = check_routine(routine) {
            return Some(line);
        }
    }
    None
}

/// Checks that there is at most one routine.
fn check_number_of_routines(routines: &[Routine]) -> Option<u32>
    ensures { Judges result (length routines.now ≤ 1) }
{
    match routines {
        [] | [_] => None,
        [_, second, ..] => Some(second.line),
    }
}

fn check_equates(program: &Program) -> Option<u32>
    ensures { Judges result (program.now.equates ≡ []) }
{
    match program.equates.as_slice() {
        [] => None,
        [first, ..] => Some(first.line),
    }
}

fn check_node_vars(program: &Program) -> Option<u32>
    ensures { Judges result (program.now.node_vars ≡ []) }
{
    match program.node_vars.as_slice() {
        [] => None,
        [first, ..] => Some(first.line),
    }
}

fn check_clusters(program: &Program) -> Option<u32>
    ensures { Judges result (program.now.clusters ≡ []) }
{
    match program.clusters.as_slice() {
        [] => None,
        [first, ..] => Some(first.line),
    }
}

/// Whether the program has a routine of this name.
fn has_routine(program: &Program, name: &Text) -> bool
    ensures { IsTrue result ↔ HasRoutine program.now name.now }
{
    for routine in program.routines.as_slice() {
        if routine.name.is(name) {
            return true;
        }
    }
    false
}

fn check_part(program: &Program, part: &NodePart) -> Option<u32>
    ensures { Judges result (IsTypedPart program.now part.now) }
{
    match part {
        NodePart::Start { name, args, line } => {
            if args.is_empty() && has_routine(program, name) {
                None
            } else {
                Some(*line)
            }
        }
        NodePart::Export { line, .. } => Some(*line),
    }
}

fn check_node(program: &Program, node: &NodeDecl) -> Option<u32>
    ensures { Judges result (IsTypedNode program.now node.now) }
{
    match node.parts.as_slice() {
        [] => None,
        [part] => check_part(program, part),
        [
            _,
            NodePart::Start { line, .. } | NodePart::Export { line, .. },
            ..
        ] => Some(*line),
    }
}

/// Checks that there is one node block, numbered 1, and that it is typed.
fn check_nodes(program: &Program) -> Option<u32>
    ensures { Judges result (HasTypedNode program.now) }
{
    match program.nodes.as_slice() {
        [node] if node.number == 1 => check_node(program, node),
        [node] => Some(node.line),
        [_, second, ..] => Some(second.line),
        [] => Some(1),
    }
}

/// Checks that a program is typed. A fault has the first line that breaks a rule or that can't run yet, counted from 1;
/// where there is no node block, it is line 1. Takes no memory.
pub fn check(program: &Program) -> Result<(), CheckFault>
    ensures ok { OnOk result (CanRun program.now) }
    ensures not_typed { OnErr result (CanRun program.now → ⊥) }
{
    let routines = program.routines.as_slice();
    let in_routines = earlier(check_number_of_routines(routines), check_routines(routines));
    let in_types = earlier(check_equates(program), check_clusters(program));
    let in_names = earlier(in_types, check_node_vars(program));
    let first = earlier(earlier(in_names, in_routines), check_nodes(program));
    match first {
        None => Ok(()),
        Some(line) => Err(CheckFault::NotTyped(line)),
    }
}
