// Why a call refuses. A refusal has a number, which names its cause, and a value, which says where or how much.
#![tactic(auto)]

ghost use Rattle.std.specs.Prelude.{◌≡◌};
ghost use Rattle.refusal.specs.Table.{numbered, valued};

#[derive(Clone, Copy, PartialEq, Eq, Debug)]
pub enum Refusal {
    /// A tree, a piece or a slot is not of this pool, mark or kind, a slot is outside the tree given, or it may not be cut.
    InvalidSlot { slot: u16 },
    /// A Hole is left, a target is none, a tail does not stand on a Chain, or a piece is of the wrong sort.
    Misplaced { slot: u16 },
    /// The answer would nest deeper than 512 records.
    TooDeep,
    /// Fewer records are free than the call needs.
    TooFewRecords { needed: u32 },
    /// The caller's buffer is shorter than what is to be written.
    BufferTooShort { needed: u32 },
    /// The grammar does not derive the tokens.
    NoDerivation,
}

impl Refusal {
    /// The number of the cause.
    pub fn number(self) -> u8
        ensures { result ≡ numbered self }
    {
        match self {
            Refusal::InvalidSlot { slot: _ } => 1,
            Refusal::Misplaced { slot: _ } => 2,
            Refusal::TooDeep => 3,
            Refusal::TooFewRecords { needed: _ } => 4,
            Refusal::BufferTooShort { needed: _ } => 5,
            Refusal::NoDerivation => 6,
        }
    }

    /// The slot at fault, the records or the length needed; 0 where there is nothing to say.
    pub fn value(self) -> u32
        ensures { result ≡ valued self }
    {
        match self {
            Refusal::InvalidSlot { slot } | Refusal::Misplaced { slot } => u32::from(slot),
            Refusal::TooFewRecords { needed } | Refusal::BufferTooShort { needed } => needed,
            Refusal::TooDeep | Refusal::NoDerivation => 0,
        }
    }
}
