//! Bodies.

ghost use Rattle.std.specs.Prelude.{◌≡◌, ◌≤◌};
ghost use Rattle.clu_grammar.specs.StmtPlan as plan;
ghost use Rattle.clu_expr_reader.specs.Gives.{Gives};

use crate::reader::{Reader, ends_body};
use crate::sized::SizedStmts;
use clu_expr_reader::{Cursor, ReadFault};
use std::alloc::Global;

/// Reads statements of at most `depth` levels, up to where a body ends.
#[tactic(auto, using(crate::proofs::Steps::bodies))]
pub fn body(alloc: Global, cursor: &mut Cursor<'_>, depth: u32) -> Result<SizedStmts, ReadFault>
    requires { depth ≤ 200 }
    ensures { Gives (λ x. x.items) result cursor.new (plan.body depth cursor.old) }
{
    if depth == 0 {
        if ends_body(cursor) {
            return Ok(SizedStmts::new(alloc));
        }
        return Err(ReadFault::Syntax(cursor.line()));
    }
    Reader {
        alloc,
        depth,
        inner: body,
    }
    .stmts(cursor)
}
