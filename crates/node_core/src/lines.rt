//! What a node prints.

ghost use Rattle.std.specs.Prelude.{◌≡◌, ◌<◌, ◌++◌, OnOk, IfOk};
ghost use Rattle.world_rules.specs.Shown.{hexadecimal, shown_byte, line_text};

use std::alloc::{AllocError, Global};
use world_types::Bytes;

fn hexadecimal(digit: u8) -> u8
    requires { digit < 16 }
    ensures { result ≡ hexadecimal digit }
{
    if digit < 10 { 48 + digit } else { 87 + digit }
}

fn push_shown(line: &mut Vec<u8>, byte: u8) -> Result<(), AllocError>
    ensures { OnOk result (line.new.items ≡ line.old.items ++ shown_byte byte) }
{
    if (32..=126).contains(&byte) && byte != b'\\' {
        line.push(byte)?;
        return Ok(());
    }
    line.push(b'\\')?;
    line.push(hexadecimal(byte / 16))?;
    line.push(hexadecimal(byte % 16))?;
    Ok(())
}

/// The line that a node prints for a text, without its end.
pub fn line_of(alloc: Global, node: u32, text: &[u8]) -> Result<Bytes, AllocError>
    ensures { IfOk result (λ line. line ≡ line_text node text.now) }
{
    let mut line = format!(in alloc; "{node}: ")?.into_bytes();
    for byte in text {
        push_shown(&mut line, *byte)?;
    }
    Ok(Bytes::from_vec(line))
}
