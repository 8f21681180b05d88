// Blocks moved between a host and a store, in rising order.
#![tactic(auto)]

ghost use Rattle.std.specs.Prelude.{◌≡◌, ◌+◌, ◌*◌, ◌^◌, ◌<◌, ◌≤◌, length};
ghost use Rattle.store.specs.Steps.{stepped};
ghost use Rattle.transfer.specs.Transfer.{put_forced, write_blocks, buffered, fetched, read_blocks, verify_block, verify_blocks};

use host_data::Extent;
use store::{BLOCK_BYTES, Store, StoreError, overwrite};

fn put_forced<S: Store>(
    store: &mut S,
    force: bool,
    block: u32,
    content: &[u8; BLOCK_BYTES],
) -> Result<(), StoreError>
    ensures { stepped result (S.Store.model store.new) ≡ put_forced S.Store.steps force block content.now (S.Store.model store.old) }
{
    store.put_block(block, content)?;
    if force {
        store.force_block(block)?;
    }
    Ok(())
}

// Puts the blocks from `address` on, and forces each after its put if `force` says so.
pub fn write_blocks<S: Store>(
    store: &mut S,
    force: bool,
    address: u32,
    blocks: &[[u8; BLOCK_BYTES]],
) -> Result<(), StoreError>
    requires { address + length blocks.now < 2 ^ 32 }
    ensures { stepped result (S.Store.model store.new) ≡ write_blocks S.Store.steps force address blocks.now (S.Store.model store.old) }
{
    // `enumerate` and no range of addresses: with a `zip` of both the proof didn't close
    for (i, block) in blocks.iter().enumerate() {
        put_forced(store, force, address + i as u32, block)?;
    }
    Ok(())
}

fn fetch<S: Store>(
    store: &mut S,
    address: u32,
    i: u16,
    data_in: &mut [u8],
) -> Result<(), StoreError>
    requires { (address + i < 2 ^ 32) × (512 * i + 512 ≤ length data_in.old) }
    ensures { stepped result (buffered (S.Store.model store.new) data_in.new) ≡ fetched S.Store.steps address i (buffered (S.Store.model store.old) data_in.old) }
{
    let content = store.read_block(address + u32::from(i))?;
    overwrite(data_in, BLOCK_BYTES * usize::from(i), &content);
    Ok(())
}

// Reads the blocks into the front of data-in.
pub fn read_blocks<S: Store>(
    store: &mut S,
    extent: Extent,
    data_in: &mut [u8],
) -> Result<(), StoreError>
    requires { (extent.address + extent.length < 2 ^ 32) × (512 * extent.length ≤ length data_in.old) }
    ensures { stepped result (buffered (S.Store.model store.new) data_in.new) ≡ read_blocks S.Store.steps extent.address extent.length (buffered (S.Store.model store.old) data_in.old) }
{
    // by number: of data-in lent in chunks a proof knows the length alone, so that with a `zip` it didn't close
    for i in 0..extent.length {
        fetch(store, extent.address, i, data_in)?;
    }
    Ok(())
}

fn verify_block<S: Store>(store: &mut S, block: u32) -> Result<(), StoreError>
    ensures { stepped result (S.Store.model store.new) ≡ verify_block S.Store.steps block (S.Store.model store.old) }
{
    store.force_block(block)?;
    store.read_block(block)?;
    Ok(())
}

// Forces and reads the blocks.
pub fn verify_blocks<S: Store>(store: &mut S, extent: Extent) -> Result<(), StoreError>
    requires { extent.address + extent.length < 2 ^ 32 }
    ensures { stepped result (S.Store.model store.new) ≡ verify_blocks S.Store.steps extent.address extent.length (S.Store.model store.old) }
{
    for block in extent.address..extent.end() {
        verify_block(store, block)?;
    }
    Ok(())
}
