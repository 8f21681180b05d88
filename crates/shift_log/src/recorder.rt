// The recorder over any store.
ghost use Rattle.std.specs.Prelude.{◌≡◌};
ghost use Rattle.store.specs.Steps.{stepped};
ghost use Rattle.shift_log.specs.Records.{block_of, encoded};
ghost use Rattle.shift_log.specs.Recording.{run, brake_calls, second_calls, shift_steps, seconds_recorded};
ghost use Rattle.shift_log.specs.Recorded.{BrakeOnMedium, Recorded};

use crate::kind::Kind;
use crate::record::{BRAKE_COMMAND_BLOCK, BRAKE_PRESSURE_BLOCK, Record};
use crate::shift::Shift;
use store::{Store, StoreError};

fn put<S: Store>(store: &mut S, kind: Kind, second: u32) -> Result<(), StoreError>
    ensures { stepped result (S.Store.model store.new) ≡ S.Store.steps.put (S.Store.model store.old) (block_of (record { kind = kind; second = second })) (encoded (record { kind = kind; second = second })) }
{
    let record = Record { kind, second };
    store.put_block(record.block(), &record.to_content())
}

// A brake action: command and pressure, both forced to the medium.
pub fn record_brake<S: Store>(store: &mut S, second: u32) -> Result<(), StoreError>
    ensures steps { stepped result (S.Store.model store.new) ≡ run S.Store.steps (brake_calls second) (S.Store.model store.old) }
    ensures forced { BrakeOnMedium second result (S.Store.meaning (S.Store.model store.old)) (S.Store.meaning (S.Store.model store.new)) }
{
    put(store, Kind::BrakeCommand, second)?;
    put(store, Kind::BrakePressure, second)?;
    store.force_block(BRAKE_COMMAND_BLOCK)?;
    store.force_block(BRAKE_PRESSURE_BLOCK)
}

// One second of the shift: an encoder record, and the brake action if there is one.
pub fn record_second<S: Store>(store: &mut S, shift: Shift, second: u32) -> Result<(), StoreError>
    ensures { stepped result (S.Store.model store.new) ≡ run S.Store.steps (second_calls shift.brake_every second) (S.Store.model store.old) }
{
    put(store, Kind::Encoder, second)?;
    if shift.brakes_at(second) {
        record_brake(store, second)
    } else {
        Ok(())
    }
}

// How a recording ended.
#[derive(Clone, Copy)]
pub struct Outcome {
    // how many seconds were recorded whole
    pub seconds: u32,
    pub answer: Result<(), StoreError>,
}

// The whole shift, second by second, and a flush.
#[tactic(auto, using(store::proofs::InTurn::goes_on), unfolding(crate::specs::Recording::seconds_steps))]
pub fn record_shift<S: Store>(store: &mut S, shift: Shift) -> Outcome
    ensures steps { stepped result.answer (S.Store.model store.new) ≡ shift_steps S.Store.steps shift.seconds shift.brake_every (S.Store.model store.old) }
    ensures seconds { result.seconds ≡ seconds_recorded S.Store.steps shift.seconds shift.brake_every (S.Store.model store.old) }
    ensures recorded { Recorded shift.seconds shift.brake_every result.answer (S.Store.meaning (S.Store.model store.old)) (S.Store.meaning (S.Store.model store.new)) }
{
    for second in 0..shift.seconds {
        if let Err(error) = record_second(store, shift, second) {
            return Outcome {
                seconds: second,
                answer: Err(error),
            };
        }
    }
    Outcome {
        seconds: shift.seconds,
        answer: store.flush(),
    }
}
