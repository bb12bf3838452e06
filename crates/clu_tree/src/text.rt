/// The bytes of a name, of a string or of a line.
pub use byte_string::ByteString as Text;
