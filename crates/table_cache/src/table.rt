// What a table cache holds, and what is true of it.
ghost use Rattle.std.specs.Prelude.{vec_items};
ghost use Rattle.table_cache.specs.Table.{TableFits};

use slot_table::SlotTable;

pub mod calls;

#[derive(Drop)]
pub struct TableBuffer {
    table: SlotTable,
    ghost fits: { TableFits (record { slots = vec_items table.slots; hand = table.hand }) },
}
