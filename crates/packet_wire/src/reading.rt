//! Packets from bytes, read from the left.

ghost use Rattle.std.specs.Prelude.{◌≡◌, IfOk, IsErrOf, List, ℕ};
ghost use Rattle.std.specs.Int.{w16, w64};
ghost use Rattle.packet_wire.specs.declared.packet.Packet.{Packet as APacket};
ghost use Rattle.packet_wire.specs.Spelling.{Spells};
ghost use Rattle.packet_wire.specs.Reading.{Gives, number_at, bytes_at, node_at, piece_at, name_at, optional_at, outcome_at, head_at, request_at, call_at, reply_at, maybe_call_at, maybe_reply_at, packet_at, whole};

use crate::fault::WireFault;
use crate::packet::Packet;
use crate::tag::{ABSENT, CALL, MAYBE_CALL, MAYBE_REPLY, PRESENT, RAISED, REPLY, VALUE};
use std::alloc::Global;
use world_types::{Bytes, Outcome};

/// The longest piece of arguments, or of a value.
const LONGEST_PIECE: u16 = 16_384;

/// The longest name of an exception.
const LONGEST_NAME: u8 = 64;

/// The number of the last node.
const LAST_NODE: u8 = 8;

/// Who sends a packet to whom, and the number of its call.
#[derive(Clone, Copy, Debug, Drop)]
struct Head {
    from: u32,
    to: u32,
    seq: u64,
}

/// What a call asks for.
#[derive(Debug, Drop)]
struct Request {
    routine: u16,
    args: Bytes,
}

fn u16_at(bytes: &[u8]) -> Result<(u16, &[u8]), WireFault>
    ensures { Gives (λ x. (x.0, x.1.now)) result (number_at w16 bytes.now) }
{
    if bytes.len() < 2 {
        return Err(WireFault::Bad);
    }
    let (front, rest) = bytes.split_at(2);
    let number = u16::from_be_bytes([front[0], front[1]]);
    Ok((number, rest))
}

fn u64_at(bytes: &[u8]) -> Result<(u64, &[u8]), WireFault>
    ensures { Gives (λ x. (x.0, x.1.now)) result (number_at w64 bytes.now) }
{
    if bytes.len() < 8 {
        return Err(WireFault::Bad);
    }
    let (front, rest) = bytes.split_at(8);
    let number = u64::from_be_bytes([
        front[0], front[1], front[2], front[3], front[4], front[5], front[6], front[7],
    ]);
    Ok((number, rest))
}

fn bytes_of(alloc: Global, len: usize, bytes: &[u8]) -> Result<(Bytes, &[u8]), WireFault>
    ensures { Gives (λ x. (x.0, x.1.now)) result (bytes_at len bytes.now) }
{
    if bytes.len() < len {
        return Err(WireFault::Bad);
    }
    let (front, rest) = bytes.split_at(len);
    Ok((Bytes::from_slice(alloc, front)?, rest))
}

#[tactic(auto, unfolding(crate::specs::Reading::node_at))]
fn node_of(bytes: &[u8]) -> Result<(u32, &[u8]), WireFault>
    ensures { Gives (λ x. (x.0, x.1.now)) result (node_at bytes.now) }
{
    let [node, rest @ ..] = bytes else {
        return Err(WireFault::Bad);
    };
    if *node < 1 || *node > LAST_NODE {
        return Err(WireFault::Bad);
    }
    Ok((u32::from(*node), rest))
}

#[tactic(auto, unfolding(crate::specs::Reading::piece_at))]
fn piece_of(alloc: Global, bytes: &[u8]) -> Result<(Bytes, &[u8]), WireFault>
    ensures { Gives (λ x. (x.0, x.1.now)) result (piece_at bytes.now) }
{
    let (len, rest) = u16_at(bytes)?;
    if len > LONGEST_PIECE {
        return Err(WireFault::Bad);
    }
    bytes_of(alloc, usize::from(len), rest)
}

#[tactic(auto, unfolding(crate::specs::Reading::name_at))]
fn name_of(alloc: Global, bytes: &[u8]) -> Result<(Bytes, &[u8]), WireFault>
    ensures { Gives (λ x. (x.0, x.1.now)) result (name_at bytes.now) }
{
    let [len, rest @ ..] = bytes else {
        return Err(WireFault::Bad);
    };
    if *len < 1 || *len > LONGEST_NAME {
        return Err(WireFault::Bad);
    }
    bytes_of(alloc, usize::from(*len), rest)
}

#[tactic(auto, unfolding(crate::specs::Reading::optional_at))]
fn optional_of(alloc: Global, bytes: &[u8]) -> Result<(Option<Bytes>, &[u8]), WireFault>
    ensures { Gives (λ x. (x.0, x.1.now)) result (optional_at bytes.now) }
{
    match bytes {
        [ABSENT, rest @ ..] => Ok((None, rest)),
        [PRESENT, rest @ ..] => {
            let (value, rest) = piece_of(alloc, rest)?;
            Ok((Some(value), rest))
        }
        _ => Err(WireFault::Bad),
    }
}

#[tactic(auto, unfolding(crate::specs::Reading::outcome_at))]
fn outcome_of(alloc: Global, bytes: &[u8]) -> Result<(Outcome, &[u8]), WireFault>
    ensures { Gives (λ x. (x.0, x.1.now)) result (outcome_at bytes.now) }
{
    match bytes {
        [VALUE, rest @ ..] => {
            let (value, rest) = piece_of(alloc, rest)?;
            Ok((Outcome::Value(value), rest))
        }
        [RAISED, rest @ ..] => {
            let (name, rest) = name_of(alloc, rest)?;
            let (value, rest) = optional_of(alloc, rest)?;
            Ok((Outcome::Raised { name, value }, rest))
        }
        _ => Err(WireFault::Bad),
    }
}

#[tactic(auto, unfolding(crate::specs::Reading::head_at))]
fn head_of(bytes: &[u8]) -> Result<(Head, &[u8]), WireFault>
    ensures { Gives (λ x. (x.0, x.1.now)) result (head_at bytes.now) }
{
    let (from, rest) = node_of(bytes)?;
    let (to, rest) = node_of(rest)?;
    let (seq, rest) = u64_at(rest)?;
    if seq < 1 {
        return Err(WireFault::Bad);
    }
    Ok((Head { from, to, seq }, rest))
}

#[tactic(auto, unfolding(crate::specs::Reading::request_at))]
fn request_of(alloc: Global, bytes: &[u8]) -> Result<(Request, &[u8]), WireFault>
    ensures { Gives (λ x. (x.0, x.1.now)) result (request_at bytes.now) }
{
    let (routine, rest) = u16_at(bytes)?;
    let (args, rest) = piece_of(alloc, rest)?;
    Ok((Request { routine, args }, rest))
}

#[tactic(auto, unfolding(crate::specs::Reading::call_at))]
fn call_of(alloc: Global, bytes: &[u8]) -> Result<(Packet, &[u8]), WireFault>
    ensures { Gives (λ x. (x.0, x.1.now)) result (call_at bytes.now) }
{
    let (head, rest) = head_of(bytes)?;
    let (floor, rest) = u64_at(rest)?;
    if floor < 1 || floor > head.seq {
        return Err(WireFault::Bad);
    }
    let (request, rest) = request_of(alloc, rest)?;
    let Head { from, to, seq } = head;
    let Request { routine, args } = request;
    let call = Packet::Call {
        from,
        to,
        seq,
        floor,
        routine,
        args,
    };
    Ok((call, rest))
}

#[tactic(auto, unfolding(crate::specs::Reading::reply_at))]
fn reply_of(alloc: Global, bytes: &[u8]) -> Result<(Packet, &[u8]), WireFault>
    ensures { Gives (λ x. (x.0, x.1.now)) result (reply_at bytes.now) }
{
    let (Head { from, to, seq }, rest) = head_of(bytes)?;
    let (outcome, rest) = outcome_of(alloc, rest)?;
    let reply = Packet::Reply {
        from,
        to,
        seq,
        outcome,
    };
    Ok((reply, rest))
}

#[tactic(auto, unfolding(crate::specs::Reading::maybe_call_at))]
fn maybe_call_of(alloc: Global, bytes: &[u8]) -> Result<(Packet, &[u8]), WireFault>
    ensures { Gives (λ x. (x.0, x.1.now)) result (maybe_call_at bytes.now) }
{
    let (Head { from, to, seq }, rest) = head_of(bytes)?;
    let (Request { routine, args }, rest) = request_of(alloc, rest)?;
    let call = Packet::MaybeCall {
        from,
        to,
        seq,
        routine,
        args,
    };
    Ok((call, rest))
}

#[tactic(auto, unfolding(crate::specs::Reading::maybe_reply_at))]
fn maybe_reply_of(alloc: Global, bytes: &[u8]) -> Result<(Packet, &[u8]), WireFault>
    ensures { Gives (λ x. (x.0, x.1.now)) result (maybe_reply_at bytes.now) }
{
    let (Head { from, to, seq }, rest) = head_of(bytes)?;
    let (outcome, rest) = outcome_of(alloc, rest)?;
    let reply = Packet::MaybeReply {
        from,
        to,
        seq,
        outcome,
    };
    Ok((reply, rest))
}

#[tactic(auto, unfolding(crate::specs::Reading::packet_at))]
fn packet_of(alloc: Global, bytes: &[u8]) -> Result<(Packet, &[u8]), WireFault>
    ensures { Gives (λ x. (x.0, x.1.now)) result (packet_at bytes.now) }
{
    let [kind, rest @ ..] = bytes else {
        return Err(WireFault::Bad);
    };
    match *kind {
        CALL => call_of(alloc, rest),
        REPLY => reply_of(alloc, rest),
        MAYBE_CALL => maybe_call_of(alloc, rest),
        MAYBE_REPLY => maybe_reply_of(alloc, rest),
        _ => Err(WireFault::Bad),
    }
}

#[tactic(auto, unfolding(crate::specs::Reading::whole))]
fn whole_of(alloc: Global, bytes: &[u8]) -> Result<Packet, WireFault>
    ensures { Gives (λ x. x) result (whole bytes.now) }
{
    let (packet, rest) = packet_of(alloc, bytes)?;
    if !rest.is_empty() {
        return Err(WireFault::Bad);
    }
    Ok(packet)
}

/// The packet that the bytes spell, all of the bytes. They may be any bytes.
pub fn read(alloc: Global, bytes: &[u8]) -> Result<Packet, WireFault>
    // What is read is spelled so.
    ensures ok { IfOk result (λ packet. Spells bytes.now packet) }
    // What is spelled so is read, and nothing else.
    ensures only { (packet : APacket) → Spells bytes.now packet → IfOk result (λ found. found ≡ packet) }
    // Only what spells no packet is bad.
    ensures bad { IsErrOf result WireFault.Bad → (packet : APacket) → ¬ (Spells bytes.now packet) }
{
    whole_of(alloc, bytes)
}
