// Why bytes are no legal container, why rows are not sent, and why a sheet refuses a call.
ghost use Rattle.std.specs.Prelude.{◌≡◌, ℕ};
ghost use Rattle.grammar.specs.Faults.{number_of, place_of, level_of, send_number_of, send_place_of, send_level_of, sheet_number_of, sheet_place_of, sheet_level_of};
ghost use Rattle.grammar.specs.declared.fault.SheetFault.TheVariants.{Reading};

use thiserror::Error;

// What each refusal tells as numbers: which it is, where, and how deep.
pub trait Refusal: Copy {
    ghost numbered: { Self → ℕ };

    ghost placed: { Self → ℕ };

    ghost leveled: { Self → ℕ };

    fn number(self) -> u8
        ensures { result ≡ numbered self };

    fn place(self) -> usize
        ensures { result ≡ placed self };

    fn level(self) -> u8
        ensures { result ≡ leveled self };
}

// The place is the offset of the faulty component's identifier, the level the number of components that hold it.
// Each variant names its own where it is made and matched: with a struct of the two each would be wrapped once more, and not all have a level.
#[derive(Clone, Copy, Debug, PartialEq, Eq, Hash, Error)]
pub enum ReadFault {
    #[error("the container has more than 65,535 bytes")]
    TooLong,
    #[error("the container has no byte")]
    Empty,
    // a header or its data pass the holder's end
    #[error("the component at byte {place} passes the end of its holder")]
    PastEnd { place: usize, level: u8 },
    // the data are too short for the fields, or longer where nothing may follow
    #[error("the data of the component at byte {place} do not have the size of its fields")]
    WrongSize { place: usize, level: u8 },
    #[error("the descriptions at byte {place} are the second ones")]
    SecondDescriptions { place: usize },
    #[error("the language at byte {place} is the second one of its text")]
    SecondLanguage { place: usize, level: u8 },
    // a longitude or latitude off the globe
    #[error("the coordinates of the component at byte {place} are off the globe")]
    OffGlobe { place: usize, level: u8 },
    // their own place and level
    #[error("the associated modes at byte {place} do not hold exactly the nodes that they count")]
    Miscounted { place: usize, level: u8 },
    #[error("the component at byte {place} is a ninth node inside eight")]
    TooDeep { place: usize, level: u8 },
}

impl Refusal for ReadFault {
    ghost numbered = { number_of };

    ghost placed = { place_of };

    ghost leveled = { level_of };

    fn number(self) -> u8 {
        match self {
            ReadFault::TooLong => 1,
            ReadFault::Empty => 2,
            ReadFault::PastEnd { .. } => 3,
            ReadFault::WrongSize { .. } => 4,
            ReadFault::SecondDescriptions { .. } => 5,
            ReadFault::SecondLanguage { .. } => 6,
            ReadFault::OffGlobe { .. } => 7,
            ReadFault::Miscounted { .. } => 8,
            ReadFault::TooDeep { .. } => 9,
        }
    }

    fn place(self) -> usize {
        match self {
            ReadFault::TooLong | ReadFault::Empty => 0,
            ReadFault::SecondDescriptions { place }
            | ReadFault::PastEnd { place, .. }
            | ReadFault::WrongSize { place, .. }
            | ReadFault::SecondLanguage { place, .. }
            | ReadFault::OffGlobe { place, .. }
            | ReadFault::Miscounted { place, .. }
            | ReadFault::TooDeep { place, .. } => place,
        }
    }

    fn level(self) -> u8 {
        match self {
            ReadFault::TooLong | ReadFault::Empty | ReadFault::SecondDescriptions { .. } => 0,
            ReadFault::PastEnd { level, .. }
            | ReadFault::WrongSize { level, .. }
            | ReadFault::SecondLanguage { level, .. }
            | ReadFault::OffGlobe { level, .. }
            | ReadFault::Miscounted { level, .. }
            | ReadFault::TooDeep { level, .. } => level,
        }
    }
}

// Why rows are not sent.
#[derive(Clone, Copy, Debug, PartialEq, Eq, Hash, Error)]
pub enum SendFault {
    #[error("no legal container tells the rows")]
    NoContainer,
    #[error("the output is too short: {needed} bytes are needed")]
    NoRoom { needed: usize },
}

impl Refusal for SendFault {
    ghost numbered = { send_number_of };

    ghost placed = { send_place_of };

    ghost leveled = { send_level_of };

    fn number(self) -> u8 {
        match self {
            SendFault::NoContainer => 15,
            SendFault::NoRoom { .. } => 16,
        }
    }

    fn place(self) -> usize {
        match self {
            SendFault::NoContainer => 0,
            SendFault::NoRoom { needed } => needed,
        }
    }

    fn level(self) -> u8 {
        0 // neither is inside a component
    }
}

// Why a sheet refuses a call. What the sheet itself finds has the rows held and the rows open before the call for its place and its level.
// Each variant names both where it is made and matched: with a struct of the two, or of the two and a reason, each would be wrapped once more.
#[derive(Clone, Copy, Debug, PartialEq, Eq, Hash, Error)]
pub enum SheetFault {
    // the container that was to be loaded is not legal: its own fault, whole
    #[error(transparent)]
    Reading(ReadFault),
    #[error("a ninth node inside eight, after {rows} rows")]
    NinthNode { rows: usize, open: u8 },
    #[error("a kind that may not stand there, after {rows} rows")]
    Misplaced { rows: usize, open: u8 },
    // a number that its field or the globe does not have, one that the kind does not use, or a text that is too long
    #[error("a number or a text that the kind does not take, after {rows} rows")]
    Unfit { rows: usize, open: u8 },
    #[error("more rows than a sheet holds, after {rows} rows")]
    TooManyRows { rows: usize, open: u8 },
    #[error("the rows cost more than the buffer has, after {rows} rows")]
    TooCostly { rows: usize, open: u8 },
    #[error("nothing is open that could be closed, after {rows} rows")]
    NothingOpen { rows: usize, open: u8 },
}

impl Refusal for SheetFault {
    ghost numbered = { sheet_number_of };

    ghost placed = { sheet_place_of };

    ghost leveled = { sheet_level_of };

    fn number(self) -> u8 {
        match self {
            SheetFault::Reading(fault) => fault.number(),
            SheetFault::NinthNode { .. } => 9,
            SheetFault::Misplaced { .. } => 10,
            SheetFault::Unfit { .. } => 11,
            SheetFault::TooManyRows { .. } => 12,
            SheetFault::TooCostly { .. } => 13,
            SheetFault::NothingOpen { .. } => 14,
        }
    }

    fn place(self) -> usize {
        match self {
            SheetFault::Reading(fault) => fault.place(),
            SheetFault::NinthNode { rows, .. }
            | SheetFault::Misplaced { rows, .. }
            | SheetFault::Unfit { rows, .. }
            | SheetFault::TooManyRows { rows, .. }
            | SheetFault::TooCostly { rows, .. }
            | SheetFault::NothingOpen { rows, .. } => rows,
        }
    }

    fn level(self) -> u8 {
        match self {
            SheetFault::Reading(fault) => fault.level(),
            SheetFault::NinthNode { open, .. }
            | SheetFault::Misplaced { open, .. }
            | SheetFault::Unfit { open, .. }
            | SheetFault::TooManyRows { open, .. }
            | SheetFault::TooCostly { open, .. }
            | SheetFault::NothingOpen { open, .. } => open,
        }
    }
}

// A sheet that refuses a container says why by the reading's fault.
impl From<ReadFault> for SheetFault {
    ghost from_gives = { λ f r. r ≡ Reading f };

    fn from(fault: ReadFault) -> SheetFault {
        SheetFault::Reading(fault)
    }
}
