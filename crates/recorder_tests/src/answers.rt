// The text of each error.
use super::checks::same;
use sense::{Attention, CommandError};
use std::fmt::Write;
use std::test::Fail;

const ERRORS: [CommandError; 18] = [
    CommandError::NoSuchHost,
    CommandError::PowerOff,
    CommandError::InvalidOpcode,
    CommandError::ShortCdb,
    CommandError::ControlSet,
    CommandError::UnitAttention(Attention::PowerOnOrReset),
    CommandError::UnitAttention(Attention::MediumChanged),
    CommandError::UnitAttention(Attention::ParametersChanged),
    CommandError::ReservationConflict,
    CommandError::InvalidField,
    CommandError::MediumNotPresent,
    CommandError::NotReady,
    CommandError::AddressOutOfRange,
    CommandError::WriteProtected,
    CommandError::RemovalPrevented,
    CommandError::ListLengthError,
    CommandError::DataPhaseError,
    CommandError::InvalidParameter,
];

// A line for each of them.
const TEXTS: &str = "\
NoSuchHost: no such host
PowerOff: the power is off
InvalidOpcode: invalid operation code
ShortCdb: the CDB is too short
ControlSet: CONTROL is not zero
UnitAttention(PowerOnOrReset): unit attention
UnitAttention(MediumChanged): unit attention
UnitAttention(ParametersChanged): unit attention
ReservationConflict: reservation conflict
InvalidField: invalid field in the CDB
MediumNotPresent: no medium
NotReady: not ready
AddressOutOfRange: address out of range
WriteProtected: write protected
RemovalPrevented: the removal of the medium is prevented
ListLengthError: the parameter list has a wrong length
DataPhaseError: data phase error
InvalidParameter: invalid field in the parameter list
";

#[test]
fn each_error_has_its_text(rt: HostRuntime) -> Result<(), Fail> {
    let mut told = String::new(rt.alloc());
    for error in &ERRORS {
        writeln!(told, "{error:?}: {error}")?;
    }
    same(told.as_str(), TEXTS)
}
