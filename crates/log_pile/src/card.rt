// The card at the bottom of the pile, new and at the next power-on.
ghost use Rattle.std.specs.Prelude.{◌≡◌, IfOk, MatchResult};
ghost use Rattle.log_pile.specs.Pile.{erased, reopened};

use flash_card::{FlashCard, PAGE_BYTES};
use shift_log::LOG_BLOCKS;
use std::alloc::{AllocError, AllocFailed, Global};
use store::Store;

// four pages more than blocks
pub const CARD_BYTES: usize = (LOG_BLOCKS as usize + 4) * PAGE_BYTES;

// A card of FFh bytes throughout, which makes so many block stores before the power goes.
pub fn erased_card(heap: Global, grant: u32) -> Result<FlashCard, AllocError>
    ensures { IfOk result (λ card. ⟦<FlashCard as Store>⟧.model card ≡ erased grant) }
{
    let memory = vec![in heap; 0xff_u8; CARD_BYTES]?;
    Ok(FlashCard::new(memory, LOG_BLOCKS, grant)?)
}

// The card at the next power-on, to see what stands on it: its memory is as it was. It comes back where there is no memory
// for the card's tables.
pub fn reopened(card: FlashCard) -> Result<FlashCard, AllocFailed<Vec<u8>>>
    ensures { MatchResult result (λ again. ⟦<FlashCard as Store>⟧.model again ≡ reopened (⟦<FlashCard as Store>⟧.model card)) (λ back. back.value.items ≡ (⟦<FlashCard as Store>⟧.model card).bytes) }
{
    let count = card.count();
    FlashCard::new(card.into_memory(), count, 1)
}
