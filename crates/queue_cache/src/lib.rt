// The queue cache: at most sixteen entries over the store below, in order of arrival.
#![tactic(auto)]

use cache::Cache;

mod queue;

pub use queue::QueueBuffer;

pub type QueueCache<S> = Cache<S, QueueBuffer>;
