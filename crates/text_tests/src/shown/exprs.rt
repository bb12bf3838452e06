//! Expressions as text, each operator with its operands in brackets.

use super::Shown;
use clu_tree::{Expr, FieldInit, Infix, Prefix};

fn infix(op: Infix) -> &'static [u8] {
    match op {
        Infix::Or => b" | ",
        Infix::Cor => b" cor ",
        Infix::And => b" & ",
        Infix::Cand => b" cand ",
        Infix::Lt => b" < ",
        Infix::Le => b" <= ",
        Infix::Equal => b" = ",
        Infix::Ge => b" >= ",
        Infix::Gt => b" > ",
        Infix::Add => b" + ",
        Infix::Sub => b" - ",
        Infix::Concat => b" || ",
        Infix::Mul => b" * ",
        Infix::Div => b" / ",
        Infix::Mod => b" // ",
    }
}

fn prefix(op: Prefix) -> &'static [u8] {
    match op {
        Prefix::Minus => b"(-",
        Prefix::Not => b"(~",
    }
}

impl Shown {
    #[cycle(expr)]
    pub fn expr(&self, expr: &Expr) {
        match expr {
            Expr::Literal(value, line) => {
                self.value(value);
                self.line(*line);
            }
            Expr::Name(name, line, _) => {
                self.name(name);
                self.line(*line);
            }
            Expr::Binary(left, op, right, line, _) => {
                self.put(b"(");
                self.expr(left.get());
                self.put(infix(*op));
                self.expr(right.get());
                self.put(b")");
                self.line(*line);
            }
            Expr::Unary(op, of, line, _) => {
                self.put(prefix(*op));
                self.expr(of.get());
                self.put(b")");
                self.line(*line);
            }
            other => self.primary(other),
        }
    }

    #[cycle(expr)]
    fn primary(&self, expr: &Expr) {
        match expr {
            Expr::Call(name, args, line, _) => {
                self.name(name);
                self.args(args.as_slice());
                self.line(*line);
            }
            Expr::Up(of, line) => {
                self.put(b"up(");
                self.expr(of.get());
                self.put(b")");
                self.line(*line);
            }
            Expr::Down(of, line) => {
                self.put(b"down(");
                self.expr(of.get());
                self.put(b")");
                self.line(*line);
            }
            Expr::Now(line) => {
                self.put(b"now()");
                self.line(*line);
            }
            Expr::Field(of, name, line, _) => {
                self.expr(of.get());
                self.put(b".");
                self.name(name);
                self.line(*line);
            }
            Expr::Index(of, at, line, _) => {
                self.expr(of.get());
                self.put(b"[");
                self.expr(at.get());
                self.put(b"]");
                self.line(*line);
            }
            other => self.of_type(other),
        }
    }

    /// What begins with a type.
    #[cycle(expr)]
    fn of_type(&self, expr: &Expr) {
        match expr {
            Expr::Op(shape, name, args, line, _) => {
                self.shape(shape);
                self.put(b"$");
                self.name(name);
                self.args(args.as_slice());
                self.line(*line);
            }
            Expr::Record(shape, inits, line, _) => {
                self.shape(shape);
                self.put(b"${");
                self.inits(inits.as_slice());
                self.put(b"}");
                self.line(*line);
            }
            Expr::Array(shape, items, line, _) => {
                self.shape(shape);
                self.put(b"$[");
                self.exprs(items.as_slice());
                self.put(b"]");
                self.line(*line);
            }
            _ => self.put(b"?"),
        }
    }

    #[cycle(expr)]
    fn exprs(&self, exprs: &[Expr]) {
        let mut between: &[u8] = b"";
        for expr in exprs {
            self.put(between);
            self.expr(expr);
            between = b", ";
        }
    }

    #[cycle(expr)]
    pub fn args(&self, args: &[Expr]) {
        self.put(b"(");
        self.exprs(args);
        self.put(b")");
    }

    #[cycle(expr)]
    fn inits(&self, inits: &[FieldInit]) {
        let mut between: &[u8] = b"";
        for init in inits {
            self.put(between);
            self.name(&init.name);
            self.put(b": ");
            self.expr(&init.value);
            between = b", ";
        }
    }
}
