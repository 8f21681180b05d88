// The parts of a module: a store, and the logical unit over it.
use logical_unit::LogicalUnit;
use store::Store;

mod calls;

#[derive(Drop)]
pub struct Device<S: Store> {
    pub store: S,
    pub unit: LogicalUnit,
}
