//! What holds of the spelling of packets, whatever writes or reads it.

ghost use Rattle.std.specs.Prelude.{◌≡◌, ◌++◌, List, ℕ, []};
ghost use Rattle.packet_wire.specs.declared.packet.Packet.{Packet as APacket};
ghost use Rattle.packet_wire.specs.Spelling.{Spells};

/// A packet has one spelling at most.
pub fn one_spelling()
    ensures { (a b : List ℕ) (packet : APacket) → Spells a packet → Spells b packet → a ≡ b }
{}

/// Packets with the same bytes are the same.
pub fn one_packet()
    ensures { (bytes : List ℕ) (p q : APacket) → Spells bytes p → Spells bytes q → p ≡ q }
{}

/// No spelling is a proper prefix of another.
pub fn no_spelling_begins_another()
    ensures { (a rest : List ℕ) (p q : APacket) → Spells a p → Spells (a ++ rest) q → rest ≡ [] }
{}
