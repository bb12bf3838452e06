use world_types::{Bytes, Outcome};

/// What one node sends another. Nodes are numbered from 1. The calls of a client are numbered from 1, those of each
/// kind by themselves. Arguments and values are as on the wire.
#[derive(Debug, Drop)]
pub enum Packet {
    /// A call that is to be made exactly once. No number below the floor is pending at the client.
    Call {
        from: u32,
        to: u32,
        seq: u64,
        floor: u64,
        routine: u16,
        args: Bytes,
    },
    /// The answer to a call that is made exactly once.
    Reply {
        from: u32,
        to: u32,
        seq: u64,
        outcome: Outcome,
    },
    /// A call that is made as often as its packet comes, or never.
    MaybeCall {
        from: u32,
        to: u32,
        seq: u64,
        routine: u16,
        args: Bytes,
    },
    /// The answer to such a call.
    MaybeReply {
        from: u32,
        to: u32,
        seq: u64,
        outcome: Outcome,
    },
}
