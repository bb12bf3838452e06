//! Statements as text.

use super::Shown;
use clu_tree::{Arm, Handlers, Iter, Remote, Stmt, TagArm, Target, When};

impl Shown {
    fn target(&self, target: &Target) {
        match target {
            Target::Name(name, line, _) => {
                self.name(name);
                self.line(*line);
            }
            Target::Field(owner, name, line, _) => {
                self.expr(owner);
                self.put(b".");
                self.name(name);
                self.line(*line);
            }
            Target::Index(array, index, line, _) => {
                self.expr(array);
                self.after(b"[", index);
                self.put(b"]");
                self.line(*line);
            }
        }
    }

    fn remote(&self, remote: &Remote) {
        match remote {
            Remote::Once(name, args, node, line, _) => {
                self.put(b"once ");
                self.name(name);
                self.args(args.as_slice());
                self.line(*line);
                self.after(b" at ", node);
            }
            Remote::Maybe(name, args, node, limit, line, _) => {
                self.put(b"maybe ");
                self.name(name);
                self.args(args.as_slice());
                self.line(*line);
                self.after(b" at ", node);
                self.after(b" within ", limit);
            }
        }
    }

    fn iter(&self, iter: &Iter) {
        match iter {
            Iter::FromTo(first, last, line) => {
                self.after(b"from ", first);
                self.after(b" to ", last);
                self.line(*line);
            }
            Iter::Elements(shape, array, line) => {
                self.shape(shape);
                self.after(b" of ", array);
                self.line(*line);
            }
        }
    }

    #[cycle(stmt)]
    pub fn body(&self, body: &[Stmt]) {
        self.put(b"{");
        for stmt in body {
            self.put(b" ");
            self.stmt(stmt);
        }
        self.put(b" }");
    }

    #[cycle(stmt)]
    fn stmt(&self, stmt: &Stmt) {
        match stmt {
            Stmt::Declare(name, shape, first, line) => {
                self.name(name);
                self.put(b": ");
                self.shape(shape);
                self.behind(b" := ", first);
                self.line(*line);
            }
            Stmt::Assign(target, value, line) => {
                self.target(target);
                self.after(b" := ", value);
                self.line(*line);
            }
            Stmt::Remote(receiver, remote, line, _) => {
                if let Some(name) = receiver {
                    self.name(name);
                    self.put(b" := ");
                }
                self.remote(remote);
                self.line(*line);
            }
            Stmt::Call(call, line) => {
                self.after(b"call ", call);
                self.line(*line);
            }
            other => self.small(other),
        }
    }

    #[cycle(stmt)]
    fn small(&self, stmt: &Stmt) {
        match stmt {
            Stmt::PutLine(text, line) => {
                self.after(b"put_line ", text);
                self.line(*line);
            }
            Stmt::Sleep(time, line) => {
                self.after(b"sleep ", time);
                self.line(*line);
            }
            Stmt::Fork(name, args, line, _) => {
                self.put(b"fork ");
                self.name(name);
                self.args(args.as_slice());
                self.line(*line);
            }
            Stmt::Return(value, line) => {
                self.put(b"return");
                self.behind(b" ", value);
                self.line(*line);
            }
            Stmt::Signal(name, value, line) => {
                self.put(b"signal ");
                self.name(name);
                self.behind(b" ", value);
                self.line(*line);
            }
            other => self.compound(other),
        }
    }

    #[cycle(stmt)]
    fn compound(&self, stmt: &Stmt) {
        match stmt {
            Stmt::If(test, body, arms, others, line) => {
                self.after(b"if ", test);
                self.body(body.as_slice());
                self.arms(arms.as_slice());
                if let Some(others) = others {
                    self.put(b" else");
                    self.body(others.as_slice());
                }
                self.line(*line);
            }
            Stmt::While(test, body, line) => {
                self.after(b"while ", test);
                self.body(body.as_slice());
                self.line(*line);
            }
            Stmt::For(name, shape, over, body, line) => {
                self.put(b"for ");
                self.name(name);
                self.put(b": ");
                self.shape(shape);
                self.put(b" in ");
                self.iter(over);
                self.body(body.as_slice());
                self.line(*line);
            }
            Stmt::Tagcase(value, arms, others, line) => {
                self.after(b"tagcase ", value);
                self.tags(arms.as_slice());
                if let Some(others) = others {
                    self.put(b" others");
                    self.body(others.as_slice());
                }
                self.line(*line);
            }
            other => self.enclosing(other),
        }
    }

    #[cycle(stmt)]
    fn enclosing(&self, stmt: &Stmt) {
        match stmt {
            Stmt::Begin(body, line) => {
                self.put(b"begin");
                self.body(body.as_slice());
                self.line(*line);
            }
            Stmt::Region(lock, body, line) => {
                self.after(b"region ", lock);
                self.body(body.as_slice());
                self.line(*line);
            }
            Stmt::Except(inner, handlers) => {
                self.put(b"(");
                self.stmt(inner.get());
                self.put(b" except");
                self.handlers(handlers);
                self.put(b")");
            }
            Stmt::Resignal(inner, names) => {
                self.put(b"(");
                self.stmt(inner.get());
                self.put(b" resignal ");
                self.names(names.as_slice());
                self.put(b")");
            }
            _ => self.put(b"?"),
        }
    }

    #[cycle(stmt)]
    fn arms(&self, arms: &[Arm]) {
        for arm in arms {
            self.after(b" elseif ", &arm.test);
            self.body(arm.body.as_slice());
        }
    }

    #[cycle(stmt)]
    fn tags(&self, arms: &[TagArm]) {
        for arm in arms {
            self.put(b" tag ");
            self.name(&arm.tag);
            self.variable(&arm.variable);
            self.body(arm.body.as_slice());
        }
    }

    #[cycle(stmt)]
    fn handlers(&self, handlers: &Handlers) {
        self.whens(handlers.whens.as_slice());
        if let Some(others) = &handlers.others {
            self.put(b" others");
            self.body(others.as_slice());
        }
    }

    #[cycle(stmt)]
    fn whens(&self, whens: &[When]) {
        for when in whens {
            self.put(b" when ");
            self.names(when.names.as_slice());
            self.variable(&when.variable);
            self.body(when.body.as_slice());
        }
    }
}
