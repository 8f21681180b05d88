// Media for the tests.
ghost use Rattle.std.specs.Prelude.{◌≡◌, ◌-◌, length, IfOk};
ghost use Rattle.store_examples.specs.Memory.{block_memory, page_memory};

use crate::memory::{Page, blocks, pages};
use flash_card::FlashCard;
use flat_medium::FlatMedium;
use medium::{BlockMedium, Layout};
use std::alloc::Global;
use std::test::Fail;

// A grant of more stores than a test makes.
pub const GRANT: u32 = 100;

// How many stores of that grant were made, where so many are left.
pub fn stores_made(left: u32) -> u32
    ensures { result ≡ 100 - left }
{
    GRANT.saturating_sub(left)
}

// A medium over this memory, with so many blocks.
pub fn medium_over<L: Layout>(
    memory: Vec<u8>,
    count: u32,
    grant: u32,
) -> Result<BlockMedium<L>, Fail>
    ensures { IfOk result (λ medium. (L.bytes medium.layout ≡ memory) × (medium.count ≡ count) × (medium.grant ≡ grant) × L.fresh medium.layout) }
{
    BlockMedium::<L>::check(&memory, count)?;
    Ok(BlockMedium::new(memory, count, grant)?)
}

// A flat medium of as many blocks as there are bytes, each with its byte throughout.
pub fn flat(heap: Global, bytes: &[u8], grant: u32) -> Result<FlatMedium, Fail>
    ensures { IfOk result (λ medium. (medium.layout.memory.items ≡ block_memory bytes.now) × (medium.count ≡ length bytes.now) × (medium.grant ≡ grant)) }
{
    let count = u32::try_from(bytes.len())?;
    medium_over(blocks(heap, bytes)?, count, grant)
}

// A flash card with so many blocks over these pages.
pub fn card(heap: Global, count: u32, over: &[Page], grant: u32) -> Result<FlashCard, Fail>
    ensures { IfOk result (λ card. (card.layout.pages.memory.items ≡ page_memory over.now) × (card.count ≡ count) × (card.grant ≡ grant) × (card.layout.hand ≡ 0)) }
{
    medium_over(pages(heap, over)?, count, grant)
}
