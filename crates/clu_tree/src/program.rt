use crate::shape::{Listed, Named, Shape};
use crate::text::Text;
use crate::tree::Stmt;
use crate::value::Value;
use sqlite_items::Items;

/// `name = type`
#[derive(Drop)]
pub struct Equate {
    pub name: Text,
    pub shape: Shape,
    pub line: u32,
}

/// A variable of which each node has its own copy.
#[derive(Drop)]
pub struct NodeVar {
    pub name: Text,
    pub shape: Shape,
    pub first: Option<Initial>,
    pub line: u32,
}

/// The value with which a node variable begins.
#[derive(Drop)]
pub enum Initial {
    Literal(Value),
    Lock,
    Semaphore(i64),
    /// `array[T]$new()`, with its element type.
    Empty(Shape),
}

/// A routine, outside or inside a cluster.
#[derive(Drop)]
pub struct Routine {
    pub name: Text,
    pub params: Items<Named>,
    pub result: Option<Shape>,
    pub signals: Items<Listed>,
    pub body: Items<Stmt>,
    pub line: u32,
}

/// A cluster. Its routines are the `count` ones of the program from the place `first` on, counted from 0.
#[derive(Drop)]
pub struct Cluster {
    pub name: Text,
    pub listed: Items<Text>,
    pub rep: Shape,
    pub first: u32,
    pub count: u32,
    pub line: u32,
}

/// `export NAME` or `start NAME(..)` of a node block.
#[derive(Drop)]
pub enum NodePart {
    Export {
        name: Text,
        line: u32,
    },
    Start {
        name: Text,
        args: Items<Value>,
        line: u32,
    },
}

/// `node N is .. end`
#[derive(Drop)]
pub struct NodeDecl {
    pub number: i64,
    pub parts: Items<NodePart>,
    pub line: u32,
}

/// A program. `routines` has all of them in the order of the text, those inside clusters included.
#[derive(Drop)]
pub struct Program {
    pub equates: Items<Equate>,
    pub node_vars: Items<NodeVar>,
    pub routines: Items<Routine>,
    pub clusters: Items<Cluster>,
    pub nodes: Items<NodeDecl>,
}
