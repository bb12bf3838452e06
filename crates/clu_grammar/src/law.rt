//! The laws, each as what a call ensures that does nothing.

ghost use Rattle.std.specs.Prelude.{[], ◌≡◌};
ghost use Rattle.clu_tree.specs.declared.shape.Shape.{Shape};
ghost use Rattle.clu_tree.specs.declared.tree.Expr.{Expr};
ghost use Rattle.clu_tree.specs.declared.program.Program.{Program};
ghost use Rattle.clu_grammar.specs.Grammar.{Tokens, ReadsShape, ReadsExpr, ReadsProgram};

/// Tokens begin with one type at most, and it ends at one place.
pub fn types_have_one_reading()
    ensures { (ts r q : Tokens) (t s : Shape) → ReadsShape ts r t → ReadsShape ts q s → (t ≡ s) × (r ≡ q) }
{}

/// Tokens that are an expression throughout are one only.
pub fn expressions_have_one_reading()
    ensures { (ts : Tokens) (x y : Expr) → ReadsExpr 5 ts [] x → ReadsExpr 5 ts [] y → x ≡ y }
{}

/// Tokens that are a program are one only, whatever its nesting.
pub fn no_text_has_two_trees()
    ensures { (ts : Tokens) (p q : Program) → ReadsProgram ts p → ReadsProgram ts q → p ≡ q }
{}
