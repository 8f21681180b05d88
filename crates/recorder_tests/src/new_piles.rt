// New cards, and the text of each error.
use super::checks::{fails, same, says};
use flash_card::FlashCard;
use piles::{Bottom, MediumError, MediumKind, Pile, PileError, Task, new_medium, with_pile};
use recorder_options::CacheKind;
use std::alloc::{AllocError, Global};
use std::test::Fail;
use store::Store;

// Three blocks on five pages.
fn new_card(heap: Global, grant: u32) -> Result<FlashCard, Fail> {
    match new_medium(heap, MediumKind::Card { pages: 5 }, 3, grant)? {
        Bottom::Card(card) => Ok(card),
        Bottom::Flat(_) => Err("a card is expected".into()),
    }
}

// Five pages of 516 bytes.
#[test]
fn a_new_card_is_of_ffh_bytes(rt: HostRuntime) -> Result<(), Fail> {
    let card = new_card(rt.alloc(), 1)?;
    same(card.count(), 3)?;
    same(card.grant(), 1)?;
    same(card.into_memory(), vec![in rt.alloc(); 0xff; 2580]?)
}

// Block 2, filled with 7, on the first of five pages.
fn memory_after_put(heap: Global) -> Result<Vec<u8>, AllocError> {
    let mut memory = Vec::new(heap);
    memory.extend_from_slice(&[0, 0, 0, 2])?;
    memory.extend_from_slice(&[7; 512])?;
    memory.resize(2580, 0xff)?;
    Ok(memory)
}

// The hand of a new card stands at page 0.
#[test]
fn the_first_put_to_a_new_card_takes_page_0(rt: HostRuntime) -> Result<(), Fail> {
    let mut card = new_card(rt.alloc(), 2)?;
    card.put_block(2, &[7; 512])?;
    same(card.into_memory(), memory_after_put(rt.alloc())?)
}

#[test]
fn errors_say_why_no_medium_is_made(rt: HostRuntime) -> Result<(), Fail> {
    let heap = rt.alloc();
    let flat = new_medium(heap, MediumKind::Flat, 0, 1);
    fails(heap, flat, "a medium has 1 to 16777216 blocks")?;
    let card = new_medium(heap, MediumKind::Card { pages: 3 }, 3, 1);
    fails(heap, card, "the memory is too small for the medium")?;
    says(
        heap,
        &MediumError::from(AllocError),
        "no memory for the medium",
    )
}

// Asks for the count, and lets the pile go.
#[derive(Clone, Copy)]
struct Count;

impl Task for Count {
    type Output = u32;

    ghost gives = { λ _ _ _ _ _ _. Unit {0} };

    fn run<S: Pile>(self, pile: S) -> u32 {
        pile.count()
    }
}

// The count of a pile of these caches over a new card.
fn counted(heap: Global, caches: &[CacheKind]) -> Result<Result<u32, PileError>, Fail> {
    let medium = Bottom::Card(new_card(heap, 1)?);
    Ok(with_pile(heap, medium, caches, Count))
}

#[test]
fn errors_say_why_no_pile_is_made(rt: HostRuntime) -> Result<(), Fail> {
    let heap = rt.alloc();
    let caches = [CacheKind::Table; 4];
    same(counted(heap, &caches[..3])??, 3)?;
    fails(
        heap,
        counted(heap, &caches)?,
        "a pile has at most three caches",
    )?;
    says(heap, &PileError::from(AllocError), "no memory for a cache")
}
