// The pile, made over a card, and taken apart after a run.
ghost use Rattle.std.specs.Prelude.{◌≡◌, ◌-◌, length, IfOk, MatchResult, nat_lt};
ghost use Rattle.slot_table.specs.Slots.{full};
ghost use Rattle.log_pile.specs.Pile.{empty_over};

use flash_card::FlashCard;
use queue_cache::QueueCache;
use std::alloc::{AllocFailed, Global};
use store::Store;
use table_cache::TableCache;

pub type Pile = TableCache<QueueCache<FlashCard>>;

// Empty caches over the card, or the card back for want of memory.
pub fn pile_over(heap: Global, card: FlashCard) -> Result<Pile, AllocFailed<FlashCard>>
    ensures over { MatchResult result (λ pile. pile.below.below ≡ card) (λ back. back.value ≡ card) }
    ensures empty { IfOk result (λ pile. ⟦<Pile as Store>⟧.model pile ≡ empty_over (⟦<FlashCard as Store>⟧.model card)) }
{
    let queue = QueueCache::new(heap, card)?;
    TableCache::new(heap, queue).map_err(|failed| AllocFailed {
        value: failed.value.into_below(),
    })
}

// What a run left of the pile.
#[derive(Drop)]
pub struct Remains {
    pub power: bool,
    // so many contents are held in each cache; without power they are lost
    pub in_table: usize,
    pub in_queue: usize,
    pub card: FlashCard,
}

impl Remains {
    pub fn of(pile: Pile) -> Remains
        ensures power { result.power ≡ nat_lt 0 (⟦<Pile as Store>⟧.model pile).below.below.grant }
        ensures in_table { result.in_table ≡ length (full (⟦<Pile as Store>⟧.model pile).held.slots) }
        ensures in_queue { result.in_queue ≡ length (⟦<Pile as Store>⟧.model pile).below.held }
        ensures card { ⟦<FlashCard as Store>⟧.model result.card ≡ (⟦<Pile as Store>⟧.model pile).below.below }
    {
        let power = pile.power();
        let in_table = pile.pending();
        let queue = pile.into_below();
        let in_queue = queue.pending();
        Remains {
            power,
            in_table,
            in_queue,
            card: queue.into_below(),
        }
    }

    // How many block stores were made, of this grant.
    pub fn stores(&self, grant: u32) -> u32
        ensures { result ≡ grant - (⟦<FlashCard as Store>⟧.model self.now.card).grant }
    {
        grant.saturating_sub(self.card.grant())
    }
}
