// The module: a device that takes commands.
use actions::Device;
use store::Store;

mod calls;

#[derive(Drop)]
pub struct Module<S: Store> {
    device: Device<S>,
}
