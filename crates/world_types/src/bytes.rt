/// A packet, a printed line, arguments.
pub use byte_string::ByteString as Bytes;

/// The name of a variable, as a question of a script has it.
pub use byte_string::ByteString as NameText;
