// What a command line asks for.
ghost use Rattle.std.specs.Prelude.{◌≤◌, ◌<◌, vec_len};

use crate::given::Given;
use crate::kinds::{CacheKind, Medium, Mode};
use crate::order::Order;

// A run of the recorder.
#[derive(Drop)]
pub struct Options {
    pub medium: Medium,
    // from the bottom up
    pub caches: Vec<CacheKind>,
    pub blocks: u32,
    // of a card
    pub pages: u32,
    pub grant: u32,
    pub mode: Mode,
    pub ghost few_caches: { vec_len caches ≤ 3 },
    pub ghost some_blocks: { 1 ≤ blocks },
    pub ghost blocks_fit: { blocks ≤ 16777216 },
    pub ghost spare_page: { blocks < pages },
}

#[derive(Drop)]
pub enum Asked {
    Help,
    Run(Options),
}
