//! Types and lists of names with types.

ghost use Rattle.std.specs.Prelude.{◌≡◌, IfOk};

use crate::shape::{Listed, Named, Shape};
use crate::text::Text;
use sqlite_items::{Boxed, Items};
use std::alloc::{AllocError, Global};

/// An equate or a cluster, by its name.
pub fn named_type(name: Text) -> Shape
    ensures { result ≡ Shape.Name name }
{
    Shape::Name(name)
}

/// `array[element]`
pub fn array_of(alloc: Global, element: Shape) -> Result<Shape, AllocError>
    ensures { IfOk result (λ x. x ≡ Shape.Arr element) }
{
    let element = Boxed::new(alloc, element)?;
    Ok(Shape::Arr(element))
}

/// `record[..]`
pub fn record_of(fields: Items<Named>) -> Shape
    ensures { result ≡ Shape.Rec fields }
{
    Shape::Rec(fields)
}

/// `oneof[..]`
pub fn oneof_of(tags: Items<Named>) -> Shape
    ensures { result ≡ Shape.Oneof tags }
{
    Shape::Oneof(tags)
}

/// `name: shape`, a field, a tag or a parameter.
pub fn named(name: Text, shape: Shape) -> Named
    ensures { result ≡ record { name = name; shape = shape } }
{
    Named { name, shape }
}

/// An exception of a `signals` list, with the type of its value, if it has one.
pub fn listed(name: Text, value: Option<Shape>) -> Listed
    ensures { result ≡ record { name = name; value = value } }
{
    Listed { name, value }
}
