// What a book keeps.
ghost use Rattle.std.specs.Prelude.{List};

/// A value that a book keeps: it holds a history, and has a label that stays.
pub trait Kept: Send + Drop {
    /// What the history is a list of.
    type Entry;

    /// Plain data that stays the same for the life of the book.
    type Label;

    // The entries so far, the oldest first.
    ghost history: { Self → List Self.Entry };

    ghost label: { Self → Self.Label };
}
