// The medium at the bottom of a pile.
ghost use Rattle.std.specs.Prelude.{◌≡◌, IfOk};
ghost use Rattle.piles.specs.Bottoms.{granted, counted, Reopened, Shows};

use flash_card::FlashCard;
use flat_medium::FlatMedium;
use std::alloc::AllocError;
use store::{BLOCK_BYTES, Store, StoreError};

#[derive(Drop)]
pub enum Bottom {
    Flat(FlatMedium),
    Card(FlashCard),
}

impl Bottom {
    // How many block stores it will still make.
    pub fn grant(&self) -> u32
        ensures { result ≡ granted self.now }
    {
        match self {
            Bottom::Flat(medium) => medium.grant(),
            Bottom::Card(card) => card.grant(),
        }
    }

    pub fn count(&self) -> u32
        ensures { result ≡ counted self.now }
    {
        match self {
            Bottom::Flat(medium) => medium.count(),
            Bottom::Card(card) => card.count(),
        }
    }

    // The medium at the next power-on, to see what stands on it: its memory is as it was.
    pub fn reopened(self) -> Result<Bottom, AllocError>
        ensures { IfOk result (Reopened self) }
    {
        let count = self.count();
        match self {
            Bottom::Flat(medium) => {
                Ok(Bottom::Flat(FlatMedium::new(medium.into_memory(), count, 1)?))
            }
            Bottom::Card(card) => Ok(Bottom::Card(FlashCard::new(card.into_memory(), count, 1)?)),
        }
    }

    // What stands at the block, where power is on.
    pub fn read(&mut self, block: u32) -> Result<[u8; BLOCK_BYTES], StoreError>
        ensures { Shows self.old block result self.new }
    {
        match self {
            Bottom::Flat(medium) => medium.read_block(block),
            Bottom::Card(card) => card.read_block(block),
        }
    }
}
