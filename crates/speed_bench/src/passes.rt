// What a pass does: calls one after the other, all of which are to be good. Nothing is cleared between them.
use crate::cdbs::{Cdb, SYNCHRONIZE_CACHE};
use rbc::Module;
use store::{BLOCK_BYTES, Store};

const HOST: u32 = 0;

pub fn put_all<S: Store>(
    store: &mut S,
    blocks: &[u32],
    content: &[u8; BLOCK_BYTES],
) -> anyhow::Result<()> {
    for block in blocks {
        store.put_block(*block, content)?;
    }
    Ok(())
}

// Each content comes into the one buffer.
pub fn read_all<S: Store>(
    store: &mut S,
    blocks: &[u32],
    buffer: &mut [u8; BLOCK_BYTES],
) -> anyhow::Result<()> {
    for block in blocks {
        *buffer = store.read_block(*block)?;
    }
    Ok(())
}

pub fn command_all<S: Store>(
    module: &mut Module<S>,
    cdbs: &[Cdb],
    data_out: &[u8],
    data_in: &mut [u8],
) -> anyhow::Result<()> {
    for cdb in cdbs {
        module.command(HOST, cdb, data_out, data_in)?;
    }
    Ok(())
}

// Each command is followed by a SYNCHRONIZE CACHE.
pub fn synchronize_all<S: Store>(
    module: &mut Module<S>,
    cdbs: &[Cdb],
    data_out: &[u8],
) -> anyhow::Result<()> {
    for cdb in cdbs {
        module.command(HOST, cdb, data_out, &mut [])?;
        module.command(HOST, &SYNCHRONIZE_CACHE, &[], &mut [])?;
    }
    Ok(())
}
