// Which caches stand over the medium, and what is done with such a pile.
ghost use Rattle.std.specs.Prelude.{◌≡◌, ◌≤◌, ℕ, length, IfOk, IsOkUnless};
ghost use Rattle.store.specs.Steps.{Steps};
ghost use Rattle.store.specs.Meaning.{Meaning};
ghost use Rattle.cache.specs.Kinds.{holding};
ghost use Rattle.table_cache.specs.Table.{table_kind};
ghost use Rattle.queue_cache.specs.Queue.{queue_kind};
ghost use Rattle.piles.specs.Orders.{start, bottom, under_caches, CountsHeld};
ghost use Rattle.piles.specs.declared.order.PileError.TheVariants.{NoMemory};

use crate::bottom::Bottom;
use crate::pile::Pile;
use queue_cache::QueueCache;
use recorder_options::CacheKind;
use std::alloc::{AllocError, Global};
use store::Store;
use table_cache::TableCache;
use thiserror::Error;

// Why a pile is not made.
#[derive(Clone, Copy, PartialEq, Eq, Debug, Error)]
pub enum PileError {
    #[error("a pile has at most three caches")]
    TooManyCaches,
    #[error("no memory for a cache")]
    NoMemory,
}

impl From<AllocError> for PileError {
    ghost from_gives = { λ _ error. error ≡ NoMemory };

    fn from(_: AllocError) -> PileError {
        PileError::NoMemory
    }
}

// What is done with a pile of any kind.
pub trait Task {
    type Output;

    // what it gives, by the steps of the pile, its meaning and how many contents its caches hold, and the state that it
    // starts in
    ghost gives: { {M : Type 0} → Self → Steps M → (M → Meaning) → (M → ℕ) → M → Self.Output → Type 0 };

    fn run<S: Pile>(self, pile: S) -> Self::Output
        ensures { (held : S.Store.Model → ℕ) → CountsHeld S.Store.model S.Pile.pending held → gives self S.Store.steps S.Store.meaning held (S.Store.model pile) result };
}

// The task on the medium under these caches, the first lowest; all are empty.
pub fn with_pile<T: Task + Drop>(
    heap: Global,
    medium: Bottom,
    caches: &[CacheKind],
    task: T,
) -> Result<T::Output, PileError>
    ensures output { IfOk result (λ output. let p = under_caches caches.now (bottom medium) in T.gives task p.steps p.meaning p.held p.state output) }
    ensures memory { length caches.now ≤ 3 → IsOkUnless result NoMemory }
{
    match medium {
        Bottom::Flat(medium) => under_three(heap, medium, caches, task),
        Bottom::Card(card) => under_three(heap, card, caches, task),
    }
}

fn under_three<S: Pile, T: Task + Drop>(
    heap: Global,
    pile: S,
    caches: &[CacheKind],
    task: T,
) -> Result<T::Output, PileError>
    ensures output { (held : S.Store.Model → ℕ) → CountsHeld S.Store.model S.Pile.pending held → IfOk result (λ output. let p = under_caches caches.now (start S.Store.steps S.Store.meaning held (S.Store.model pile)) in T.gives task p.steps p.meaning p.held p.state output) }
    ensures memory { length caches.now ≤ 3 → IsOkUnless result NoMemory }
{
    let Some((cache, rest)) = caches.split_first() else {
        return Ok(task.run(pile));
    };
    match cache {
        CacheKind::Table => under_two(heap, table_over(heap, pile)?, rest, task),
        CacheKind::Queue => under_two(heap, queue_over(heap, pile)?, rest, task),
    }
}

fn under_two<S: Pile, T: Task + Drop>(
    heap: Global,
    pile: S,
    caches: &[CacheKind],
    task: T,
) -> Result<T::Output, PileError>
    ensures output { (held : S.Store.Model → ℕ) → CountsHeld S.Store.model S.Pile.pending held → IfOk result (λ output. let p = under_caches caches.now (start S.Store.steps S.Store.meaning held (S.Store.model pile)) in T.gives task p.steps p.meaning p.held p.state output) }
    ensures memory { length caches.now ≤ 2 → IsOkUnless result NoMemory }
{
    let Some((cache, rest)) = caches.split_first() else {
        return Ok(task.run(pile));
    };
    match cache {
        CacheKind::Table => under_one(heap, table_over(heap, pile)?, rest, task),
        CacheKind::Queue => under_one(heap, queue_over(heap, pile)?, rest, task),
    }
}

fn under_one<S: Pile, T: Task + Drop>(
    heap: Global,
    pile: S,
    caches: &[CacheKind],
    task: T,
) -> Result<T::Output, PileError>
    ensures output { (held : S.Store.Model → ℕ) → CountsHeld S.Store.model S.Pile.pending held → IfOk result (λ output. let p = under_caches caches.now (start S.Store.steps S.Store.meaning held (S.Store.model pile)) in T.gives task p.steps p.meaning p.held p.state output) }
    ensures memory { length caches.now ≤ 1 → IsOkUnless result NoMemory }
{
    let Some((cache, rest)) = caches.split_first() else {
        return Ok(task.run(pile));
    };
    match cache {
        CacheKind::Table => under_none(table_over(heap, pile)?, rest, task),
        CacheKind::Queue => under_none(queue_over(heap, pile)?, rest, task),
    }
}

fn under_none<S: Pile, T: Task + Drop>(
    pile: S,
    caches: &[CacheKind],
    task: T,
) -> Result<T::Output, PileError>
    ensures output { (held : S.Store.Model → ℕ) → CountsHeld S.Store.model S.Pile.pending held → IfOk result (λ output. let p = under_caches caches.now (start S.Store.steps S.Store.meaning held (S.Store.model pile)) in T.gives task p.steps p.meaning p.held p.state output) }
    ensures memory { length caches.now ≤ 0 → IsOkUnless result NoMemory }
{
    if caches.is_empty() {
        Ok(task.run(pile))
    } else {
        Err(PileError::TooManyCaches)
    }
}

fn table_over<S: Pile>(heap: Global, pile: S) -> Result<TableCache<S>, AllocError>
    ensures { IfOk result (λ cache. ⟦<TableCache<S> as Store>⟧.model cache ≡ holding table_kind.empty (S.Store.model pile)) }
{
    Ok(TableCache::new(heap, pile)?)
}

fn queue_over<S: Pile>(heap: Global, pile: S) -> Result<QueueCache<S>, AllocError>
    ensures { IfOk result (λ cache. ⟦<QueueCache<S> as Store>⟧.model cache ≡ holding queue_kind.empty (S.Store.model pile)) }
{
    Ok(QueueCache::new(heap, pile)?)
}
