// The table cache: eight slots over the store below, and a hand that goes round.
#![tactic(auto)]

use cache::Cache;

mod table;

pub use table::TableBuffer;

pub type TableCache<S> = Cache<S, TableBuffer>;
