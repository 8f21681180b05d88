// START STOP UNIT in every state of the medium and its power condition.
use super::checks::same_at;
use commands::{PowerCondition, StartStop};
use logical_unit::{Condition, LogicalUnit, Settings};
use sense::Attention;
use std::test::Fail;

const CONDITIONS: [Condition; 5] = [
    Condition::Active,
    Condition::Idle,
    Condition::Standby,
    Condition::Sleep,
    Condition::Stopped,
];

const BOTH: [bool; 2] = [false, true];

// Host 2 holds the reservation, host 1 has a removal bar, and each host was told its attention.
fn unit(loaded: bool, condition: Condition) -> LogicalUnit {
    LogicalUnit {
        loaded,
        condition,
        holder: Some(2),
        bars: [false, true, false, false],
        attentions: [None; 4],
        settings: Settings::default(),
    }
}

// The unit after START STOP UNIT with this code as its power condition.
fn after(before: LogicalUnit, code: u8, start: bool, load_eject: bool) -> LogicalUnit {
    let mut unit = before;
    unit.start_stop(StartStop {
        condition: PowerCondition::from(code),
        start,
        load_eject,
    });
    unit
}

// Start and LoEj do not count, and the medium is as it was.
fn takes(code: u8, condition: Condition, loaded: bool) -> Result<(), Fail> {
    let wanted = unit(loaded, condition);
    for before in CONDITIONS {
        for start in BOTH {
            for load_eject in BOTH {
                let found = after(unit(loaded, before), code, start, load_eject);
                same_at((code, before), found, wanted)?;
            }
        }
    }
    Ok(())
}

#[test]
fn a_power_condition_is_taken() -> Result<(), Fail> {
    for (code, condition) in [
        (1, Condition::Active),
        (2, Condition::Idle),
        (3, Condition::Standby),
        (5, Condition::Sleep),
        (7, Condition::Active),
    ] {
        for loaded in BOTH {
            takes(code, condition, loaded)?;
        }
    }
    Ok(())
}

// Power condition 0 makes this unit from one with its medium loaded or not.
fn makes(start: bool, load_eject: bool, was_loaded: bool, wanted: LogicalUnit) -> Result<(), Fail> {
    for before in CONDITIONS {
        let found = after(unit(was_loaded, before), 0, start, load_eject);
        same_at((start, load_eject, before), found, wanted)?;
    }
    Ok(())
}

#[test]
fn start_and_loej_stop_unload_start_and_load() -> Result<(), Fail> {
    let loaded_anew = LogicalUnit {
        attentions: [Some(Attention::MediumChanged); 4],
        ..unit(true, Condition::Active)
    };
    makes(false, false, false, unit(false, Condition::Stopped))?;
    makes(false, false, true, unit(true, Condition::Stopped))?;
    makes(false, true, false, unit(false, Condition::Stopped))?;
    makes(false, true, true, unit(false, Condition::Stopped))?;
    makes(true, false, false, unit(false, Condition::Active))?;
    makes(true, false, true, unit(true, Condition::Active))?;
    makes(true, true, false, loaded_anew)?;
    makes(true, true, true, unit(true, Condition::Active))
}
