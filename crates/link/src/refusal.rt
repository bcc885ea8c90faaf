// Why a call was refused. Each refusal tells its number, whom it concerns, and a detail.
ghost use Rattle.std.specs.Prelude.{◌≡◌};
ghost use Rattle.link.specs.Refusals.{told};

#[derive(Clone, Copy, Debug, PartialEq, Eq)]
pub enum Group {
    Installer,
    Host,
    Radio,
    Air,
    Recording,
}

// Generic in what is told of a block that is refused, so that a sender's refusals, which never are of a block, name no kind of cost.
#[derive(Clone, Copy, Debug, PartialEq, Eq)]
pub enum Refusal<B> {
    // The installer's: what was opened cannot be.
    UnsoundCode,
    BadLengths,
    UnsuitedLine,
    // The host program's.
    ShortMemory { needed: usize },
    CountFull,
    NotStealable,
    WrongLength,
    BadBit { place: usize },
    // The radio's.
    WrongCount { given: usize },
    UnfitSample { place: usize },
    // The air's: the burst and its block are counted all the same.
    WrongParity(B),
    // The recording's.
    BadRecord { offset: usize },
}

impl<B: Copy> Refusal<B> {
    // The number and the detail, 0 where none is named, are what a refusal tells outside; inside it is the enum.
    pub fn number(&self) -> u8
        ensures { result ≡ (told self.now).number }
    {
        match self {
            Refusal::UnsoundCode => 1,
            Refusal::BadLengths => 2,
            Refusal::UnsuitedLine => 3,
            Refusal::ShortMemory { .. } => 4,
            Refusal::CountFull => 5,
            Refusal::WrongCount { .. } => 6,
            Refusal::UnfitSample { .. } => 7,
            Refusal::NotStealable => 8,
            Refusal::WrongLength => 9,
            Refusal::BadBit { .. } => 10,
            Refusal::WrongParity(_) => 11,
            Refusal::BadRecord { .. } => 12,
        }
    }

    pub fn group(&self) -> Group
        ensures { result ≡ (told self.now).group }
    {
        match self {
            Refusal::UnsoundCode | Refusal::BadLengths | Refusal::UnsuitedLine => Group::Installer,
            Refusal::ShortMemory { .. }
            | Refusal::CountFull
            | Refusal::NotStealable
            | Refusal::WrongLength
            | Refusal::BadBit { .. } => Group::Host,
            Refusal::WrongCount { .. } | Refusal::UnfitSample { .. } => Group::Radio,
            Refusal::WrongParity(_) => Group::Air,
            Refusal::BadRecord { .. } => Group::Recording,
        }
    }

    pub fn detail(&self) -> usize
        ensures { result ≡ (told self.now).detail }
    {
        match self {
            Refusal::ShortMemory { needed } => *needed,
            Refusal::WrongCount { given } => *given,
            Refusal::UnfitSample { place } => *place,
            Refusal::BadBit { place } => *place,
            Refusal::BadRecord { offset } => *offset,
            _ => 0,
        }
    }
}
