use crate::text::Text;
use sqlite_items::{Boxed, Items};

/// A type as it is written. `cvt` and `rep` stand only inside a cluster.
#[cycle(shape)]
#[derive(Drop)]
pub enum Shape {
    Null,
    Bool,
    Int,
    Char,
    Str,
    Lock,
    Semaphore,
    Cvt,
    Rep,
    /// An equate's or a cluster's name.
    Name(Text),
    Arr(Boxed<Shape>),
    Rec(Items<Named>),
    Oneof(Items<Named>),
}

/// A name with its type: a field, a tag or a parameter.
#[cycle(shape)]
#[derive(Drop)]
pub struct Named {
    pub name: Text,
    pub shape: Shape,
}

/// An exception that a routine lists, with the type of its value, if it has one.
#[derive(Drop)]
pub struct Listed {
    pub name: Text,
    pub value: Option<Shape>,
}
