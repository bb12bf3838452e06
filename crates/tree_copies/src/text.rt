ghost use Rattle.std.specs.Prelude.{◌≡◌, IfOk};

use clu_tree::Text;
use owned_parts::followed;
use sqlite_items::Items;
use std::alloc::{AllocError, Global};

/// Equal texts, in order.
pub(crate) fn copy_texts(alloc: Global, texts: &[Text]) -> Result<Items<Text>, AllocError>
    ensures { IfOk result (λ ts. ts ≡ texts.now) }
{
    let mut copies = Items::new(alloc);
    for text in texts {
        copies = followed(copies, text.copy(alloc))?;
    }
    Ok(copies)
}

pub(crate) fn copy_text_if_any(
    alloc: Global,
    text: &Option<Text>,
) -> Result<Option<Text>, AllocError>
    ensures { IfOk result (λ t. t ≡ text.now) }
{
    match text {
        None => Ok(None),
        Some(text) => {
            let text = text.copy(alloc)?;
            Ok(Some(text))
        }
    }
}
