// COMMAND, RESET and MAKE.
ghost use Rattle.std.specs.Prelude.{◌≡◌};
ghost use Rattle.rbc_steps.specs.Module.{exchange, replied, answer_of, commanded, reset, made_over};
ghost use Rattle.rbc_steps.specs.Refusals.{RefusalKeeps};
ghost use Rattle.rbc_steps.specs.Work.{work_done};
ghost use Rattle.rbc_steps.specs.Limits.{Limits, Flushed};
ghost use Rattle.run_law.specs.Law.{RunsSafely};
ghost use Rattle.rbc.specs.Modeled.{modeled};

use super::Module;
use actions::Device;
use effects::run;
use ladder::judge;
use logical_unit::LogicalUnit;
use sense::{Answer, CommandError};
use store::{Store, StoreError};

// A store that does its part answers no for want of power alone. No `From`: the crates of the two errors know nothing
// of each other.
fn answer_of(outcome: Result<u32, StoreError>) -> Answer
    ensures { result ≡ answer_of outcome }
{
    outcome.map_err(|_| CommandError::PowerOff)
}

// What the pile holds is flushed, whatever that answers.
fn flush_pile<S: Store>(store: &mut S)
    ensures { S.Store.model store.new ≡ (S.Store.steps.flush (S.Store.model store.old)).after }
{
    let _ = store.flush();
}

impl<S: Store> Module<S> {
    // COMMAND: the ladder, and then what the command does. Data-in past the count of the answer is left as it is.
    pub fn command(&mut self, host: u32, cdb: &[u8], data_out: &[u8], data_in: &mut [u8]) -> Answer
        ensures value { replied result (exchange (modeled S.Store.model self.new) data_in.new) ≡ commanded S.Store.steps host cdb.now data_out.now (exchange (modeled S.Store.model self.old) data_in.old) }
        ensures refusals { RefusalKeeps S.Store.steps host (exchange (modeled S.Store.model self.old) data_in.old) (replied result (exchange (modeled S.Store.model self.new) data_in.new)) }
        ensures limits { Limits (S.Store.meaning (S.Store.model self.old.device.store)) (work_done self.old.device.unit cdb.now data_out.now result (S.Store.steps.power (S.Store.model self.old.device.store))) result (S.Store.meaning (S.Store.model self.new.device.store)) }
    {
        let power = self.device.store.power();
        let count = self.device.store.count();
        match judge(
            &self.device.unit,
            host,
            power,
            count,
            cdb,
            data_out,
            data_in.len(),
        ) {
            Ok((host, command)) => answer_of(run(&mut self.device, host, command, data_in)),
            Err(error) => {
                if let CommandError::UnitAttention(_) = error {
                    self.device.unit.clear_attention(host);
                }
                Err(error)
            }
        }
    }

    // RESET: without power it does nothing.
    pub fn reset(&mut self) -> Answer
        ensures { replied result (modeled S.Store.model self.new) ≡ reset S.Store.steps (modeled S.Store.model self.old) }
    {
        if !self.device.store.power() {
            return Err(CommandError::PowerOff);
        }
        self.device.unit.reset();
        Ok(0)
    }

    // MAKE: what the pile holds is flushed; the module is made whatever that answers. Every list of calls on it is safe.
    pub fn make(store: S) -> Module<S>
        ensures value { modeled S.Store.model result ≡ made_over S.Store.steps (S.Store.model store) }
        ensures flushed { Flushed (S.Store.meaning (S.Store.model store)) (S.Store.meaning (S.Store.model result.device.store)) }
        ensures law { RunsSafely S.Store.steps S.Store.meaning (modeled S.Store.model result) }
    {
        let mut store = store;
        flush_pile(&mut store);
        let unit = LogicalUnit::new();
        Module {
            device: Device { store, unit },
        }
    }

    // The store back, with what it holds.
    pub fn into_store(self) -> S
        ensures { result ≡ self.device.store }
    {
        let Module { device } = self;
        let Device { store, unit: _ } = device;
        store
    }
}
