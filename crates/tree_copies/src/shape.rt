ghost use Rattle.std.specs.Prelude.{◌≡◌, IfOk};

use clu_tree::{Named, Shape};
use owned_parts::{beside, boxed, followed};
use sqlite_items::{Boxed, Items};
use std::alloc::{AllocError, Global};

/// An equal type.
#[cycle(copy_shape)]
pub fn copy_shape(alloc: Global, shape: &Shape) -> Result<Shape, AllocError>
    ensures { IfOk result (λ s. s ≡ shape.now) }
{
    match shape {
        Shape::Null => Ok(Shape::Null),
        Shape::Bool => Ok(Shape::Bool),
        Shape::Int => Ok(Shape::Int),
        Shape::Char => Ok(Shape::Char),
        Shape::Str => Ok(Shape::Str),
        Shape::Lock => Ok(Shape::Lock),
        Shape::Semaphore => Ok(Shape::Semaphore),
        Shape::Cvt => Ok(Shape::Cvt),
        Shape::Rep => Ok(Shape::Rep),
        Shape::Name(name) => {
            let name = name.copy(alloc)?;
            Ok(Shape::Name(name))
        }
        Shape::Arr(item) => {
            let item = copy_boxed(alloc, item.get())?;
            Ok(Shape::Arr(item))
        }
        Shape::Rec(fields) => {
            let fields = copy_named_items(alloc, fields.as_slice())?;
            Ok(Shape::Rec(fields))
        }
        Shape::Oneof(tags) => {
            let tags = copy_named_items(alloc, tags.as_slice())?;
            Ok(Shape::Oneof(tags))
        }
    }
}

#[cycle(copy_shape)]
fn copy_boxed(alloc: Global, shape: &Shape) -> Result<Boxed<Shape>, AllocError>
    ensures { IfOk result (λ s. s ≡ shape.now) }
{
    boxed(alloc, copy_shape(alloc, shape))
}

/// An equal name with its type.
#[cycle(copy_shape)]
pub fn copy_named(alloc: Global, named: &Named) -> Result<Named, AllocError>
    ensures { IfOk result (λ n. n ≡ named.now) }
{
    let name = named.name.copy(alloc)?;
    let (name, shape) = beside(name, copy_shape(alloc, &named.shape))?;
    Ok(Named { name, shape })
}

#[cycle(copy_shape)]
fn copy_named_items(alloc: Global, items: &[Named]) -> Result<Items<Named>, AllocError>
    ensures { IfOk result (λ ns. ns ≡ items.now) }
{
    let mut copies = Items::new(alloc);
    for named in items {
        copies = followed(copies, copy_named(alloc, named))?;
    }
    Ok(copies)
}

pub(crate) fn copy_named_if_any(
    alloc: Global,
    named: &Option<Named>,
) -> Result<Option<Named>, AllocError>
    ensures { IfOk result (λ n. n ≡ named.now) }
{
    match named {
        None => Ok(None),
        Some(named) => {
            let named = copy_named(alloc, named)?;
            Ok(Some(named))
        }
    }
}
