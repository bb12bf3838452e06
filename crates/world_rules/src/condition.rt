//! The numbered conditions that an entry meets.

ghost use Rattle.std.specs.Prelude.{◌≡◌};
ghost use Rattle.world_rules.specs.Conditions.{number_of};

/// A condition of an entry after a list. Which of them an event has to meet, and in which order, `Legal` says. The
/// first that fails refuses the entry, by its number.
#[derive(Clone, Copy, Debug)]
pub enum Condition {
    /// 1: the stamp isn't below the last stamp.
    StampRises,
    /// 2: no `quit` stands before.
    NotQuit,
    /// 3: each node that is named is one of the program's.
    NamesNodes,
    /// 4: the node isn't halted.
    Runs,
    /// 5: the node is halted.
    Halts,
    /// 6: a round is open.
    InRound,
    /// 7: no round is open.
    NoRound,
    /// 8: all nodes are halted.
    AllHalt,
    /// 9: if a round is open, the node has taken no turn since its opening.
    FirstTurn,
    /// 10: the reading is at least the node's last stamp, at most this stamp and, if a round is open, at most its
    /// opening's.
    ReadsInTime,
    /// 11: no limit is due for a turn or a stop; some limit is due for a tick.
    DueFits,
    /// 12: some process is ready.
    CanStep,
    /// 13: the picked process stands at a marked line that it hasn't passed: for a stop, and not for a turn.
    AtMark,
    /// 14: the packet was sent to this node by an entry before.
    WasSent,
    /// 15: if a round is open, the node is halted.
    HaltsInRound,
    /// 16: the node has no open question.
    NotAsked,
    /// 17: the node has an open question.
    IsAsked,
    /// 18: no node has an open question.
    NoneAsked,
    /// 22: if there is a goal, it isn't reached yet: for a packet only where the node isn't halted.
    BeforeGoal,
}

impl Condition {
    /// The number that a refusal answers.
    pub fn number(self) -> u8
        ensures { result ≡ number_of self }
    {
        match self {
            Condition::StampRises => 1,
            Condition::NotQuit => 2,
            Condition::NamesNodes => 3,
            Condition::Runs => 4,
            Condition::Halts => 5,
            Condition::InRound => 6,
            Condition::NoRound => 7,
            Condition::AllHalt => 8,
            Condition::FirstTurn => 9,
            Condition::ReadsInTime => 10,
            Condition::DueFits => 11,
            Condition::CanStep => 12,
            Condition::AtMark => 13,
            Condition::WasSent => 14,
            Condition::HaltsInRound => 15,
            Condition::NotAsked => 16,
            Condition::IsAsked => 17,
            Condition::NoneAsked => 18,
            Condition::BeforeGoal => 22,
        }
    }
}
