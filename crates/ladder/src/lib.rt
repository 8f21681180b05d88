// The ladder of tests that each command passes before it runs. The first that fails gives the answer.
#![tactic(auto)]

ghost use Rattle.std.specs.Prelude.{◌≡◌, IfOk, OnOk};
ghost use Rattle.commands.specs.Carried.{order};
ghost use Rattle.sense.specs.Ladder.{first_no};
ghost use Rattle.logical_unit.specs.Hosts.{host_number};
ghost use Rattle.ladder.specs.Ladder.{ready, held_by_other, any_bar, standing_rungs, data_rungs, judged, passed, Runs};

use cdb::decode;
use commands::Command;
use logical_unit::{Condition, Host, LogicalUnit};
use sense::CommandError;

fn is_ready(condition: Condition) -> bool
    ensures { result ≡ ready condition }
{
    matches!(
        condition,
        Condition::Active | Condition::Idle | Condition::Standby
    )
}

fn is_held_by_other(unit: &LogicalUnit, host: Host) -> bool
    ensures { result ≡ held_by_other unit.now.holder (host_number host) }
{
    unit.holder.is_some_and(|holder| holder != host.number())
}

fn has_bar(unit: &LogicalUnit) -> bool
    ensures { result ≡ any_bar unit.now.bars }
{
    unit.bars.contains(&true)
}

// The tests of the host's standing and of the unit's state.
fn admit(unit: &LogicalUnit, host: Host, command: Command<'_>) -> Result<(), CommandError>
    ensures { result ≡ first_no (standing_rungs unit.now (host_number host) (order command.entry)) }
{
    if !command.is_inquiry()
        && let Some(attention) = unit.attention(host)
    {
        return Err(CommandError::UnitAttention(attention));
    }
    if is_held_by_other(unit, host) && !command.passes_reservation() {
        return Err(CommandError::ReservationConflict);
    }
    if !command.has_valid_fields() {
        return Err(CommandError::InvalidField);
    }
    if command.uses_medium() && !unit.loaded {
        return Err(CommandError::MediumNotPresent);
    }
    if command.uses_medium() && !is_ready(unit.condition) {
        return Err(CommandError::NotReady);
    }
    Ok(())
}

// The tests of the command's blocks and data.
fn accept(
    unit: &LogicalUnit,
    count: u32,
    room: usize,
    command: Command<'_>,
) -> Result<(), CommandError>
    ensures value { result ≡ first_no (data_rungs unit.now count room (order command.entry)) }
    ensures runs { OnOk result (Runs count room (order command.entry)) }
{
    if !command.is_in_range(count) {
        return Err(CommandError::AddressOutOfRange);
    }
    if command.writes() && unit.settings.writed {
        return Err(CommandError::WriteProtected);
    }
    if command.unloads() && has_bar(unit) {
        return Err(CommandError::RemovalPrevented);
    }
    if !command.has_valid_list_length() {
        return Err(CommandError::ListLengthError);
    }
    if !(command.is_supplied() && command.returned() <= room) {
        return Err(CommandError::DataPhaseError);
    }
    if !command.has_valid_parameters() {
        return Err(CommandError::InvalidParameter);
    }
    Ok(())
}

// The host and the command of the CDB if it passes every test, else the first refusal. CDB and data-out come one by
// one, as COMMAND takes them; what the store says of itself meets them in this one call.
pub fn judge<'a>(
    unit: &LogicalUnit,
    host: u32,
    power: bool,
    count: u32,
    cdb: &[u8],
    data_out: &'a [u8],
    room: usize,
) -> Result<(Host, Command<'a>), CommandError>
    ensures value { passed result ≡ judged unit.now host power count cdb.now data_out.now room }
    ensures runs { IfOk result (λ p. (host_number p.0 ≡ host) × Runs count room (order p.1)) }
{
    let host = Host::try_from(host)?;
    if !power {
        return Err(CommandError::PowerOff);
    }
    let command = decode(cdb, data_out)?;
    admit(unit, host, command)?;
    accept(unit, count, room, command)?;
    Ok((host, command))
}
