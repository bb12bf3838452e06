//! Types as text.

use super::Shown;
use clu_tree::{Named, Shape};

impl Shown {
    #[cycle(shape)]
    pub fn shape(&self, shape: &Shape) {
        match shape {
            Shape::Null => self.put(b"null"),
            Shape::Bool => self.put(b"bool"),
            Shape::Int => self.put(b"int"),
            Shape::Char => self.put(b"char"),
            Shape::Str => self.put(b"string"),
            Shape::Lock => self.put(b"lock"),
            Shape::Semaphore => self.put(b"semaphore"),
            Shape::Cvt => self.put(b"cvt"),
            Shape::Rep => self.put(b"rep"),
            Shape::Name(name) => self.name(name),
            Shape::Arr(element) => {
                self.put(b"array[");
                self.shape(element.get());
                self.put(b"]");
            }
            Shape::Rec(fields) => {
                self.put(b"record[");
                self.fields(fields.as_slice());
                self.put(b"]");
            }
            Shape::Oneof(tags) => {
                self.put(b"oneof[");
                self.fields(tags.as_slice());
                self.put(b"]");
            }
        }
    }

    #[cycle(shape)]
    fn fields(&self, fields: &[Named]) {
        let mut between: &[u8] = b"";
        for field in fields {
            self.put(between);
            self.named(field);
            between = b", ";
        }
    }

    #[cycle(shape)]
    pub fn named(&self, named: &Named) {
        self.name(&named.name);
        self.put(b": ");
        self.shape(&named.shape);
    }
}
