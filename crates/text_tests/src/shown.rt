//! Trees as text: each part in its place, and `@` with the line of each node that has one.

mod exprs;
mod programs;
mod shapes;
mod stmts;

use clu_tree::{Expr, Named, Text, Value};
use itoa::Buffer;
use std::alloc::Global;
use std::cell::RefCell;

/// Whether the lines of nodes are shown, as `a@1`.
#[derive(Clone, Copy)]
pub enum Style {
    Plain,
    Lines,
}

/// A text that grows. It stands in a cell, so that what shows a tree changes nothing else.
#[derive(Drop)]
pub struct Shown {
    style: Style,
    bytes: RefCell<Vec<u8>>,
}

impl Shown {
    pub fn new(alloc: Global, style: Style) -> Shown {
        Shown {
            style,
            bytes: RefCell::new(Vec::new(alloc)),
        }
    }

    /// Whether this text is shown.
    pub fn is(&self, text: &str) -> bool {
        match self.bytes.try_borrow() {
            Ok(bytes) => bytes.as_slice() == text.as_bytes(),
            Err(_) => false,
        }
    }

    /// Puts a text behind the others, unless memory runs out.
    fn put(&self, text: &[u8]) {
        if let Ok(mut bytes) = self.bytes.try_borrow_mut() {
            bytes.extend_from_slice(text).unwrap_or(());
        }
    }

    fn name(&self, name: &Text) {
        self.put(name.as_slice());
    }

    fn names(&self, names: &[Text]) {
        let mut between: &[u8] = b"";
        for name in names {
            self.put(between);
            self.name(name);
            between = b", ";
        }
    }

    fn line(&self, line: u32) {
        match self.style {
            Style::Plain => {}
            Style::Lines => {
                self.put(b"@");
                self.number(i64::from(line));
            }
        }
    }

    fn number(&self, number: i64) {
        let mut buffer = Buffer::new();
        self.put(buffer.format(number).as_bytes());
    }

    fn value(&self, value: &Value) {
        match value {
            Value::Nil => self.put(b"nil"),
            Value::Bool(true) => self.put(b"true"),
            Value::Bool(false) => self.put(b"false"),
            Value::Int(number) => self.number(*number),
            Value::Char(code) => {
                self.put(b"'");
                self.number(i64::from(*code));
            }
            Value::Str(content) => {
                self.put(b"\"");
                self.name(content);
            }
            Value::Ref(_) => self.put(b"?"),
        }
    }

    fn variable(&self, variable: &Option<Named>) {
        match variable {
            None => {}
            Some(named) => {
                self.put(b" (");
                self.named(named);
                self.put(b")");
            }
        }
    }

    /// A part that may be there, behind these bytes.
    fn behind(&self, before: &[u8], expr: &Option<Expr>) {
        match expr {
            None => {}
            Some(expr) => self.after(before, expr),
        }
    }

    fn after(&self, before: &[u8], expr: &Expr) {
        self.put(before);
        self.expr(expr);
    }
}
