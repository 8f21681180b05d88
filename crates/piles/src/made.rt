// New media.
ghost use Rattle.std.specs.Prelude.{◌≡◌, ◌≤◌, IfOk, IsOkUnless};
ghost use Rattle.piles.specs.Bottoms.{IsNew, HasRoom};
ghost use Rattle.piles.specs.declared.made.MediumError.TheVariants.{NoMemory};

use crate::bottom::Bottom;
use flash_card::{FlashCard, PAGE_BYTES};
use flat_medium::FlatMedium;
use medium::Unfit;
use std::alloc::{AllocError, Global};
use store::BLOCK_BYTES;
use thiserror::Error;

// A kind of medium.
#[derive(Clone, Copy, PartialEq, Eq, Debug)]
pub enum MediumKind {
    Flat,
    Card { pages: u32 },
}

// Why a medium is not made.
#[derive(Clone, Copy, PartialEq, Eq, Debug, Error)]
pub enum MediumError {
    #[error("{0}")]
    Unfit(Unfit),
    #[error("no memory for the medium")]
    NoMemory,
}

impl From<Unfit> for MediumError {
    fn from(unfit: Unfit) -> MediumError {
        MediumError::Unfit(unfit)
    }
}

impl From<AllocError> for MediumError {
    ghost from_gives = { λ _ error. error ≡ NoMemory };

    fn from(_: AllocError) -> MediumError {
        MediumError::NoMemory
    }
}

// A medium of so many blocks: flat memory of zeros, or a card of FFh bytes.
pub fn new_medium(
    heap: Global,
    kind: MediumKind,
    blocks: u32,
    grant: u32,
) -> Result<Bottom, MediumError>
    ensures new { IfOk result (IsNew kind blocks grant) }
    ensures memory { 1 ≤ blocks → blocks ≤ 16777216 → HasRoom kind blocks → IsOkUnless result NoMemory }
{
    match kind {
        MediumKind::Flat => {
            let memory = vec![in heap; 0_u8; blocks as usize * BLOCK_BYTES]?;
            FlatMedium::check(&memory, blocks)?;
            let medium = FlatMedium::new(memory, blocks, grant).map_err(AllocError::from)?;
            Ok(Bottom::Flat(medium))
        }
        MediumKind::Card { pages } => {
            let memory = vec![in heap; 0xff_u8; pages as usize * PAGE_BYTES]?;
            FlashCard::check(&memory, blocks)?;
            let card = FlashCard::new(memory, blocks, grant).map_err(AllocError::from)?;
            Ok(Bottom::Card(card))
        }
    }
}
