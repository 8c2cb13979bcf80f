// Document 01's limits and refusal numbers, each once and by name. The definitions of `specs/` say the same for contracts;
// include/glasspuddle.h says it for C and Rust, and tests/numbers.sh compares the three. It assumes nothing.
#![tactic(auto)]

ghost use Rattle.std.specs.Prelude.{◌≡◌};
ghost use Rattle.limits.specs.Faults.{Numbers, Named};

// "table 1 to 4,096 bytes"
pub const TABLE_LEAST: usize = 1;

pub const TABLE_MOST: usize = 4096;

// "S at most 32": an array by stream has as many entries
pub const STREAMS_MOST: usize = 32;

// the pairs of two streams
pub const PAIRS_MOST: usize = STREAMS_MOST * STREAMS_MOST;

// "I and O at least 1": so each is at most S less 1
pub const OUTPUTS_MOST: usize = STREAMS_MOST - 1;

// "nodes nest at most 16 levels deep"
pub const LEVELS_MOST: u8 = 16;

// "k from -128 to 127 and not 0"
pub const BACK_MOST: u16 = 128;

pub const AHEAD_MOST: u16 = 127;

// A weight is noted as a number from 1 on, 0 being left for "no reference": the note of the weight 0 in rising and in falling order.
pub const RISE_OF_ZERO: u16 = BACK_MOST + 1;

pub const FALL_OF_ZERO: u16 = AHEAD_MOST + 1;

// "store at most 4,096 words"
pub const STORE_MOST: usize = 4096;

// "at most 4,294,967,295 rows in a run"
pub const ROWS_MOST: u32 = 4294967295;

// "An accepted call answers number 0 and place 0."
pub const ACCEPTED: u8 = 0;

// Why a table or a call is refused, by document 01's numbers.
#[derive(Clone, Copy, Debug, PartialEq, Eq)]
pub enum Fault {
    // "table length out of its limits"
    TableLength = 1,
    // "kind byte or body missing"
    Missing = 2,
    // "kind not allowed here"
    WrongKind = 3,
    // "a field out of its rule"
    WrongField = 4,
    // "node not of the wanted type"
    WrongType = 5,
    // "node at level 17"
    TooDeep = 6,
    // "a loop totals 0 or more"
    WrongLoop = 7,
    // "store words over 4,096"
    OverWords = 8,
    // "bytes after the last expression"
    BytesAfter = 9,
    // "not a record of this table"
    ForeignRecord = 10,
    // "lent store shorter than announced"
    ShortStore = 11,
    // "call not of this phase"
    WrongPhase = 12,
    // "row limit reached"
    RowLimit = 13,
    // "row hasn't I words"
    RowLength = 14,
    // "input flag word above 1"
    WrongFlag = 15,
    // "lent output shorter than the room"
    ShortOutput = 16,
}

// The number of a fault.
impl From<Fault> for u8 {
    ghost from_gives = { Numbers };

    fn from(fault: Fault) -> u8 {
        fault as u8
    }
}

// A byte that is no fault's number.
#[derive(Clone, Copy, Debug, PartialEq, Eq)]
pub struct UnknownFault(pub u8);

// The fault of a number.
impl TryFrom<u8> for Fault {
    type Error = UnknownFault;

    ghost try_from_gives = { Named };

    fn try_from(number: u8) -> Result<Fault, UnknownFault> {
        match number {
            1 => Ok(Fault::TableLength),
            2 => Ok(Fault::Missing),
            3 => Ok(Fault::WrongKind),
            4 => Ok(Fault::WrongField),
            5 => Ok(Fault::WrongType),
            6 => Ok(Fault::TooDeep),
            7 => Ok(Fault::WrongLoop),
            8 => Ok(Fault::OverWords),
            9 => Ok(Fault::BytesAfter),
            10 => Ok(Fault::ForeignRecord),
            11 => Ok(Fault::ShortStore),
            12 => Ok(Fault::WrongPhase),
            13 => Ok(Fault::RowLimit),
            14 => Ok(Fault::RowLength),
            15 => Ok(Fault::WrongFlag),
            16 => Ok(Fault::ShortOutput),
            _ => Err(UnknownFault(number)),
        }
    }
}

// "A refusal has one number and one place."
#[derive(Clone, Copy, Debug, PartialEq, Eq)]
pub struct Refusal {
    pub fault: Fault,
    pub place: usize,
}

impl Fault {
    // The refusal with this fault at a place.
    pub fn at(self, place: usize) -> Refusal
        ensures { result ≡ record { fault = self; place = place } }
    {
        Refusal { fault: self, place }
    }
}
