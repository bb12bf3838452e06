//! Statements and their parts, with how deep each is.
#![tactic(auto, using(crate::proofs::Nodes::lists))]

ghost use Rattle.std.specs.Prelude.{◌≡◌, ◌+◌, ◌≤◌, max, List, [], ◌∷◌, ◌++◌, Option, Some, None, map, OnOk};
ghost use Rattle.clu_grammar.specs.Nesting.{deepest, value_nesting, variable_nesting, target_nesting, remote_nesting, iter_nesting, stmt_nesting, arm_nesting, tag_nesting, when_nesting, handlers_nesting};
ghost use Rattle.clu_stmt_reader.specs.Parts.{others_nesting};

use clu_expr_reader::SizedExpr;
use clu_tree::{Arm, Expr, Handlers, Iter, Named, Remote, Stmt, TagArm, Target, When};
use sqlite_items::{Boxed, Items};
use std::alloc::{AllocError, Global};

/// A statement, with the number of its levels.
#[derive(Drop)]
pub struct SizedStmt {
    pub stmt: Stmt,
    pub height: u32,
    ghost nests: { height ≡ stmt_nesting stmt },
    ghost small: { height ≤ 200 },
}

/// Statements, with the number of the levels of the deepest.
#[derive(Drop)]
pub struct SizedStmts {
    pub items: Items<Stmt>,
    pub height: u32,
    ghost nests: { height ≡ deepest (map stmt_nesting items) },
    ghost small: { height ≤ 200 },
}

/// The `elseif` parts of a choice, with the number of the levels of the deepest.
#[derive(Drop)]
pub struct SizedArms {
    pub arms: Items<Arm>,
    pub height: u32,
    ghost nests: { height ≡ deepest (map arm_nesting arms) },
    ghost small: { height ≤ 200 },
}

/// An `elseif` part of a choice, with the number of its levels.
#[derive(Drop)]
pub struct SizedArm {
    pub arm: Arm,
    pub height: u32,
    ghost nests: { height ≡ arm_nesting arm },
    ghost small: { height ≤ 200 },
}

/// The `tag` parts of a `tagcase`, with the number of the levels of the deepest.
#[derive(Drop)]
pub struct SizedTags {
    pub tags: Items<TagArm>,
    pub height: u32,
    ghost nests: { height ≡ deepest (map tag_nesting tags) },
    ghost small: { height ≤ 200 },
}

/// A `tag` part of a `tagcase`, with the number of its levels.
#[derive(Drop)]
pub struct SizedTag {
    pub tag: TagArm,
    pub height: u32,
    ghost nests: { height ≡ tag_nesting tag },
    ghost small: { height ≤ 200 },
}

/// The `when` parts of an `except`, with the number of the levels of the deepest.
#[derive(Drop)]
pub struct SizedWhens {
    pub whens: Items<When>,
    pub height: u32,
    ghost nests: { height ≡ deepest (map when_nesting whens) },
    ghost small: { height ≤ 200 },
}

/// A `when` part of an `except`, with the number of its levels.
#[derive(Drop)]
pub struct SizedWhen {
    pub when: When,
    pub height: u32,
    ghost nests: { height ≡ when_nesting when },
    ghost small: { height ≤ 200 },
}

/// The handlers of an `except`, with the number of their levels.
#[derive(Drop)]
pub struct SizedHandlers {
    pub handlers: Handlers,
    pub height: u32,
    ghost nests: { height ≡ handlers_nesting handlers },
    ghost small: { height ≤ 200 },
}

/// Statements that may be left out, as those of `else`, with the number of the levels of the deepest.
#[derive(Drop)]
pub struct SizedOthers {
    pub body: Option<Items<Stmt>>,
    pub height: u32,
    ghost nests: { height ≡ others_nesting body },
    ghost small: { height ≤ 200 },
}

/// A value that may be left out, with the number of its levels.
#[derive(Drop)]
pub struct SizedValue {
    pub value: Option<Expr>,
    pub height: u32,
    ghost nests: { height ≡ value_nesting value },
    ghost small: { height ≤ 200 },
}

/// A variable with its type that may be left out, with the number of its levels.
#[derive(Drop)]
pub struct SizedVariable {
    pub variable: Option<Named>,
    pub height: u32,
    ghost nests: { height ≡ variable_nesting variable },
    ghost small: { height ≤ 200 },
}

/// What stands before `:=`, with the number of its levels.
#[derive(Drop)]
pub struct SizedTarget {
    pub target: Boxed<Target>,
    pub height: u32,
    ghost nests: { height ≡ target_nesting target },
    ghost small: { height ≤ 200 },
}

/// A remote call, with the number of its levels.
#[derive(Drop)]
pub struct SizedRemote {
    pub remote: Boxed<Remote>,
    pub height: u32,
    ghost nests: { height ≡ remote_nesting remote },
    ghost small: { height ≤ 200 },
}

/// What a `for` goes over, with the number of its levels.
#[derive(Drop)]
pub struct SizedIter {
    pub iter: Boxed<Iter>,
    pub height: u32,
    ghost nests: { height ≡ iter_nesting iter },
    ghost small: { height ≤ 200 },
}

impl SizedStmts {
    pub fn new(alloc: Global) -> SizedStmts
        ensures { result.items ≡ [] }
    {
        SizedStmts {
            items: Items::new(alloc),
            height: 0,
        }
    }

    pub fn push(&mut self, last: SizedStmt) -> Result<(), AllocError>
        ensures { OnOk result (self.new.items ≡ self.old.items ++ last.stmt ∷ []) }
    {
        self.items.push(last.stmt)?;
        self.height = self.height.max(last.height);
        Ok(())
    }
}

impl SizedArms {
    pub fn new(alloc: Global) -> SizedArms
        ensures { result.arms ≡ [] }
    {
        SizedArms {
            arms: Items::new(alloc),
            height: 0,
        }
    }

    pub fn push(&mut self, last: SizedArm) -> Result<(), AllocError>
        ensures { OnOk result (self.new.arms ≡ self.old.arms ++ last.arm ∷ []) }
    {
        self.arms.push(last.arm)?;
        self.height = self.height.max(last.height);
        Ok(())
    }
}

impl SizedTags {
    pub fn new(alloc: Global) -> SizedTags
        ensures { result.tags ≡ [] }
    {
        SizedTags {
            tags: Items::new(alloc),
            height: 0,
        }
    }

    pub fn push(&mut self, last: SizedTag) -> Result<(), AllocError>
        ensures { OnOk result (self.new.tags ≡ self.old.tags ++ last.tag ∷ []) }
    {
        self.tags.push(last.tag)?;
        self.height = self.height.max(last.height);
        Ok(())
    }
}

impl SizedWhens {
    pub fn new(alloc: Global) -> SizedWhens
        ensures { result.whens ≡ [] }
    {
        SizedWhens {
            whens: Items::new(alloc),
            height: 0,
        }
    }

    pub fn push(&mut self, last: SizedWhen) -> Result<(), AllocError>
        ensures { OnOk result (self.new.whens ≡ self.old.whens ++ last.when ∷ []) }
    {
        self.whens.push(last.when)?;
        self.height = self.height.max(last.height);
        Ok(())
    }
}

impl SizedOthers {
    /// None are written.
    pub fn none() -> SizedOthers
        ensures { result.body ≡ None }
    {
        SizedOthers {
            body: None,
            height: 0,
        }
    }

    pub fn of(body: SizedStmts) -> SizedOthers
        ensures { result.body ≡ Some body.items }
    {
        SizedOthers {
            height: body.height,
            body: Some(body.items),
        }
    }
}

impl SizedValue {
    /// None is written.
    pub fn none() -> SizedValue
        ensures { result.value ≡ None }
    {
        SizedValue {
            value: None,
            height: 0,
        }
    }

    pub fn of(value: SizedExpr) -> SizedValue
        ensures { result.value ≡ Some value.expr }
    {
        SizedValue {
            height: value.height,
            value: Some(value.expr.into_inner()),
        }
    }
}

impl SizedVariable {
    /// None is written.
    pub fn none() -> SizedVariable
        ensures { result.variable ≡ None }
    {
        SizedVariable {
            variable: None,
            height: 0,
        }
    }
}
