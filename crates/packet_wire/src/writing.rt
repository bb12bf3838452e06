//! Packets as bytes.

ghost use Rattle.std.specs.Prelude.{◌≡◌, ◌≤◌, ◌++◌, ◌∷◌, [], OnOk, IfOk, IfSome};
ghost use Rattle.std.specs.Int.{w64, to_be_bytes};
ghost use Rattle.packet_wire.specs.Spelling.{Spells, IsWithin, HasWidths, IsNode, IsPiece, IsName, IsOutcome, piece, optional, outcome, head, request, spelling};

use crate::fault::Memory;
use crate::packet::Packet;
use crate::tag::{ABSENT, CALL, MAYBE_CALL, MAYBE_REPLY, PRESENT, RAISED, REPLY, VALUE};
use std::alloc::Global;
use world_types::{Bytes, Outcome};

fn put_u64(out: &mut Vec<u8>, number: u64) -> Result<(), Memory>
    ensures { OnOk result (out.new.items ≡ out.old.items ++ to_be_bytes w64 number) }
{
    out.extend_from_slice(&number.to_be_bytes())?;
    Ok(())
}

fn put_piece(out: &mut Vec<u8>, bytes: &Bytes) -> Result<(), Memory>
    requires { IsPiece bytes.now }
    ensures { OnOk result (out.new.items ≡ out.old.items ++ piece bytes.now) }
{
    let bytes = bytes.as_slice();
    out.extend_from_slice(&(bytes.len() as u16).to_be_bytes())?;
    out.extend_from_slice(bytes)?;
    Ok(())
}

fn put_outcome(out: &mut Vec<u8>, ended: &Outcome) -> Result<(), Memory>
    requires { IsOutcome ended.now }
    ensures { OnOk result (out.new.items ≡ out.old.items ++ outcome ended.now) }
{
    match ended {
        Outcome::Value(value) => {
            out.push(VALUE)?;
            put_piece(out, value)?;
        }
        Outcome::Raised { name, value } => {
            let name = name.as_slice();
            out.push(RAISED)?;
            out.push(name.len() as u8)?;
            out.extend_from_slice(name)?;
            put_optional(out, value)?;
        }
    }
    Ok(())
}

fn put_optional(out: &mut Vec<u8>, value: &Option<Bytes>) -> Result<(), Memory>
    requires { IfSome value.now IsPiece }
    ensures { OnOk result (out.new.items ≡ out.old.items ++ optional value.now) }
{
    match value {
        None => out.push(ABSENT)?,
        Some(value) => {
            out.push(PRESENT)?;
            put_piece(out, value)?;
        }
    }
    Ok(())
}

fn put_head(out: &mut Vec<u8>, kind: u8, from: u32, to: u32, seq: u64) -> Result<(), Memory>
    requires from { IsNode from }
    requires to { IsNode to }
    ensures { OnOk result (out.new.items ≡ out.old.items ++ kind ∷ head from to seq) }
{
    out.push(kind)?;
    out.push(from as u8)?;
    out.push(to as u8)?;
    put_u64(out, seq)?;
    Ok(())
}

fn put_request(out: &mut Vec<u8>, routine: u16, args: &Bytes) -> Result<(), Memory>
    requires { IsPiece args.now }
    ensures { OnOk result (out.new.items ≡ out.old.items ++ request routine args.now) }
{
    out.extend_from_slice(&routine.to_be_bytes())?;
    put_piece(out, args)
}

fn put_packet(out: &mut Vec<u8>, packet: &Packet) -> Result<(), Memory>
    requires { IsWithin packet.now }
    ensures spelled { OnOk result (out.new.items ≡ out.old.items ++ spelling packet.now) }
    ensures widths { OnOk result (HasWidths packet.now) }
{
    match packet {
        Packet::Call {
            from,
            to,
            seq,
            floor,
            routine,
            args,
        } => {
            put_head(out, CALL, *from, *to, *seq)?;
            put_u64(out, *floor)?;
            put_request(out, *routine, args)?;
        }
        Packet::Reply {
            from,
            to,
            seq,
            outcome,
        } => {
            put_head(out, REPLY, *from, *to, *seq)?;
            put_outcome(out, outcome)?;
        }
        Packet::MaybeCall {
            from,
            to,
            seq,
            routine,
            args,
        } => {
            put_head(out, MAYBE_CALL, *from, *to, *seq)?;
            put_request(out, *routine, args)?;
        }
        Packet::MaybeReply {
            from,
            to,
            seq,
            outcome,
        } => {
            put_head(out, MAYBE_REPLY, *from, *to, *seq)?;
            put_outcome(out, outcome)?;
        }
    }
    Ok(())
}

/// The one spelling of the packet, which is within the wire's bounds.
pub fn write(alloc: Global, packet: &Packet) -> Result<Vec<u8>, Memory>
    requires { IsWithin packet.now }
    ensures { IfOk result (λ bytes. Spells bytes.items packet.now) }
{
    let mut out = Vec::new(alloc);
    put_packet(&mut out, packet)?;
    Ok(out)
}
