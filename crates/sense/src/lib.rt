// What COMMAND and RESET answer, and how an answer is reported to the host: number, status and sense data.
#![tactic(auto)]

ghost use Rattle.std.specs.Prelude.{◌≡◌};
ghost use Rattle.sense.specs.Codes.{status_code, key_code};
ghost use Rattle.sense.specs.Report.{attention_codes, error_report, report};

use thiserror::Error;

// A unit attention, the highest first: a pending one yields only to a higher one.
#[derive(Clone, Copy, PartialEq, Eq, PartialOrd, Ord, Debug)]
pub enum Attention {
    PowerOnOrReset,
    MediumChanged,
    ParametersChanged,
}

// Why an answer is not good: one case for each number from 1 on, in the order of the numbers.
#[derive(Clone, Copy, PartialEq, Eq, Debug, Error)]
pub enum CommandError {
    #[error("no such host")]
    NoSuchHost,
    // power was off, or was lost on the way
    #[error("the power is off")]
    PowerOff,
    #[error("invalid operation code")]
    InvalidOpcode,
    #[error("the CDB is too short")]
    ShortCdb,
    #[error("CONTROL is not zero")]
    ControlSet,
    #[error("unit attention")]
    UnitAttention(Attention),
    #[error("reservation conflict")]
    ReservationConflict,
    #[error("invalid field in the CDB")]
    InvalidField,
    #[error("no medium")]
    MediumNotPresent,
    #[error("not ready")]
    NotReady,
    #[error("address out of range")]
    AddressOutOfRange,
    #[error("write protected")]
    WriteProtected,
    #[error("the removal of the medium is prevented")]
    RemovalPrevented,
    #[error("the parameter list has a wrong length")]
    ListLengthError,
    #[error("data phase error")]
    DataPhaseError,
    #[error("invalid field in the parameter list")]
    InvalidParameter,
}

// The count of bytes put at the front of data-in, or why not.
pub type Answer = Result<u32, CommandError>;

// What the host is told, each field as its number.
#[derive(Clone, Copy, PartialEq, Eq, Debug)]
pub struct Report {
    pub number: u8,
    pub status: u8,
    // sense key, additional sense code and its qualifier
    pub key: u8,
    pub asc: u8,
    pub ascq: u8,
    // how many bytes were put at the front of data-in
    pub count: u32,
}

// The status of an answer, by its code.
#[derive(Clone, Copy)]
enum Status {
    Good = 0x00,
    CheckCondition = 0x02,
    ReservationConflict = 0x18,
    // of an answer that reaches no logical unit
    NotReached = 0xff,
}

// The sense key of an answer with sense data, by its code.
#[derive(Clone, Copy)]
enum SenseKey {
    NotReady = 0x2,
    IllegalRequest = 0x5,
    UnitAttention = 0x6,
    DataProtect = 0x7,
    AbortedCommand = 0xb,
}

impl Report {
    fn without_sense(number: u8, status: Status, count: u32) -> Report
        ensures { result ≡ record { number = number; status = status_code status; key = 0; asc = 0; ascq = 0; count = count } }
    {
        Report {
            number,
            status: status as u8,
            key: 0,
            asc: 0,
            ascq: 0,
            count,
        }
    }

    fn with_sense(number: u8, key: SenseKey, asc: u8, ascq: u8) -> Report
        ensures { result ≡ record { number = number; status = 2; key = key_code key; asc = asc; ascq = ascq; count = 0 } }
    {
        Report {
            number,
            status: Status::CheckCondition as u8,
            key: key as u8,
            asc,
            ascq,
            count: 0,
        }
    }

    fn illegal_request(number: u8, asc: u8, ascq: u8) -> Report
        ensures { result ≡ record { number = number; status = 2; key = 5; asc = asc; ascq = ascq; count = 0 } }
    {
        Report::with_sense(number, SenseKey::IllegalRequest, asc, ascq)
    }
}

impl Attention {
    // The additional sense code and its qualifier.
    pub fn codes(self) -> (u8, u8)
        ensures { result ≡ attention_codes self }
    {
        match self {
            Attention::PowerOnOrReset => (0x29, 0x00),
            Attention::MediumChanged => (0x28, 0x00),
            Attention::ParametersChanged => (0x2a, 0x01),
        }
    }
}

impl CommandError {
    // The number, status and sense data of each error.
    pub fn report(self) -> Report
        ensures { result ≡ error_report self }
    {
        match self {
            Self::NoSuchHost => Report::without_sense(1, Status::NotReached, 0),
            Self::PowerOff => Report::without_sense(2, Status::NotReached, 0),
            Self::InvalidOpcode => Report::illegal_request(3, 0x20, 0x00),
            Self::ShortCdb => Report::illegal_request(4, 0x24, 0x00),
            Self::ControlSet => Report::illegal_request(5, 0x24, 0x00),
            Self::UnitAttention(attention) => {
                let (asc, ascq) = attention.codes();
                Report::with_sense(6, SenseKey::UnitAttention, asc, ascq)
            }
            Self::ReservationConflict => Report::without_sense(7, Status::ReservationConflict, 0),
            Self::InvalidField => Report::illegal_request(8, 0x24, 0x00),
            Self::MediumNotPresent => Report::with_sense(9, SenseKey::NotReady, 0x3a, 0x00),
            Self::NotReady => Report::with_sense(10, SenseKey::NotReady, 0x04, 0x02),
            Self::AddressOutOfRange => Report::illegal_request(11, 0x21, 0x00),
            Self::WriteProtected => Report::with_sense(12, SenseKey::DataProtect, 0x27, 0x00),
            Self::RemovalPrevented => Report::illegal_request(13, 0x53, 0x02),
            Self::ListLengthError => Report::illegal_request(14, 0x1a, 0x00),
            Self::DataPhaseError => Report::with_sense(15, SenseKey::AbortedCommand, 0x4b, 0x00),
            Self::InvalidParameter => Report::illegal_request(16, 0x26, 0x00),
        }
    }
}

// The number, status and sense data of each answer.
impl From<Answer> for Report {
    ghost from_gives = { λ a r. r ≡ report a };

    fn from(answer: Answer) -> Report {
        match answer {
            Ok(count) => Report::without_sense(0, Status::Good, count),
            Err(error) => error.report(),
        }
    }
}

// The number of an answer: 0 good, and one for each error.
pub fn number(answer: Answer) -> u8
    ensures { result ≡ (report answer).number }
{
    Report::from(answer).number
}

// The count of bytes put at the front of data-in.
pub fn count(answer: Answer) -> u32
    ensures { result ≡ (report answer).count }
{
    Report::from(answer).count
}
