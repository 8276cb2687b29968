//! The refusals that a script can be answered.
ghost use Rattle.std.specs.Prelude.{◌≡◌};
ghost use Rattle.raft_script_answers.specs.Refusal.{label_of};

/// Why an event is refused (own): 1 to 16 by its node, C1 to C9 by the cluster.
#[derive(Clone, Copy, PartialEq, Eq)]
pub enum Refusal {
    /// The leader is named where it is known.
    NotLeader { leader: Option<u64> },
    UnknownGroup,
    GroupExists,
    NotAllowed,
    NotVoter,
    Membership,
    VoterChange,
    InProgress,
    CommandTooLong,
    NumberAtEnd,
    Failed,
    WrongParty,
    TooMuchForBatch,
    BreaksCondition,
    Frame,
    Stopped,
    NoNode,
    NodeDown,
    NodeUp,
    NoFrame,
    SetupDiffers,
    ByChance,
    NotAnImage,
    BadCut,
}

impl Refusal {
    /// Its number and its name.
    pub fn label(&self) -> &'static str
        ensures { result.now ≡ label_of self.now }
    {
        match self {
            Refusal::NotLeader { .. } => "1 NotLeader",
            Refusal::UnknownGroup => "2 UnknownGroup",
            Refusal::GroupExists => "3 GroupExists",
            Refusal::NotAllowed => "4 NotAllowed",
            Refusal::NotVoter => "5 NotVoter",
            Refusal::Membership => "6 Membership",
            Refusal::VoterChange => "7 VoterChange",
            Refusal::InProgress => "8 InProgress",
            Refusal::CommandTooLong => "9 CommandTooLong",
            Refusal::NumberAtEnd => "10 NumberAtEnd",
            Refusal::Failed => "11 Failed",
            Refusal::WrongParty => "12 WrongParty",
            Refusal::TooMuchForBatch => "13 TooMuchForBatch",
            Refusal::BreaksCondition => "14 BreaksCondition",
            Refusal::Frame => "15 Frame",
            Refusal::Stopped => "16 Stopped",
            Refusal::NoNode => "C1 NoNode",
            Refusal::NodeDown => "C2 NodeDown",
            Refusal::NodeUp => "C3 NodeUp",
            Refusal::NoFrame => "C4 NoFrame",
            Refusal::SetupDiffers => "C5 SetupDiffers",
            Refusal::ByChance => "C6 ByChance",
            Refusal::NotAnImage => "C7 NotAnImage",
            Refusal::BadCut => "C9 BadCut",
        }
    }
}
