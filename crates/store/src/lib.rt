// A store of 512-byte blocks: what each call answers and leaves, and what every store keeps.
#![tactic(auto)]

ghost use Rattle.std.specs.Prelude.{◌≡◌};
ghost use Rattle.store.specs.Steps.{Steps, stepped, number, if_power, admitted};
ghost use Rattle.store.specs.Meaning.{Meaning};
ghost use Rattle.store.specs.Keeps.{Keeps};

use thiserror::Error;

mod parts;

pub use parts::overwrite;

pub const BLOCK_BYTES: usize = 512;

// Why a call on a store was not good.
#[derive(Clone, Copy, PartialEq, Eq, Debug, Error)]
pub enum StoreError {
    // power was off, or was lost during the call
    #[error("the power is off")]
    PowerOff,
    #[error("there is no such block")]
    NoSuchBlock,
}

// The number of an answer, as the rules of a store name it: 0 good, 1 power off or lost, 2 no such block.
pub fn answer_number<T>(answer: &Result<T, StoreError>) -> u8
    ensures { result ≡ number answer.now }
{
    match answer {
        Ok(_) => 0,
        Err(StoreError::PowerOff) => 1,
        Err(StoreError::NoSuchBlock) => 2,
    }
}

// Refuses a call while power is off.
pub fn require_power(power: bool) -> Result<(), StoreError>
    ensures { result ≡ if_power power }
{
    if power {
        Ok(())
    } else {
        Err(StoreError::PowerOff)
    }
}

// The refusals of a call on one block, in their order.
pub fn admit(block: u32, count: u32, power: bool) -> Result<(), StoreError>
    ensures { result ≡ admitted block count power }
{
    if block >= count {
        return Err(StoreError::NoSuchBlock);
    }
    require_power(power)
}

// A store of blocks, numbered from 0. Each call's promise is an equation: what it answers and the
// model it leaves are those of the implementation's step function. `keeps` says what these steps
// have in common, so code over any store is proved once.
pub trait Store {
    // the store as its steps see it
    ghost Model: { Type 0 };

    ghost model: { Self → Model };

    // what each call answers, and the model that it leaves
    ghost steps: { Steps Model };

    // the block count, how many block stores the medium will still make, and each block's contents
    ghost meaning: { Model → Meaning };

    // what is true of the model of every value of the type
    ghost good: { Model → Type 0 };

    // The number of blocks, which never changes.
    fn count(&self) -> u32
        ensures { result ≡ steps.count (model self.now) };

    // Whether the medium will still store a block.
    fn power(&self) -> bool
        ensures { result ≡ steps.power (model self.now) };

    // The refusals of a call on one block, in their order.
    fn admit(&self, block: u32) -> Result<(), StoreError>
        ensures { result ≡ admitted block (steps.count (model self.now)) (steps.power (model self.now)) }
    {
        admit(block, self.count(), self.power())
    }

    // The block's last content: the latest that was put, or what the medium has.
    fn read_block(&mut self, block: u32) -> Result<[u8; BLOCK_BYTES], StoreError>
        ensures { stepped result (model self.new) ≡ steps.read (model self.old) block };

    // A new content for the block, which may wait above the medium.
    fn put_block(&mut self, block: u32, content: &[u8; BLOCK_BYTES]) -> Result<(), StoreError>
        ensures { stepped result (model self.new) ≡ steps.put (model self.old) block content.now };

    // Brings the block's latest content to the medium.
    fn force_block(&mut self, block: u32) -> Result<(), StoreError>
        ensures { stepped result (model self.new) ≡ steps.force (model self.old) block };

    // Brings every block's latest content to the medium.
    fn flush(&mut self) -> Result<(), StoreError>
        ensures { stepped result (model self.new) ≡ steps.flush (model self.old) };

    ghost keeps: { Keeps steps meaning good };

    ghost valid: { (s : Self) → good (model s) };
}
