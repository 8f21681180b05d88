// Examples of the stores, each with one thing to see.
mod caches;
mod calls;
mod card_pages;
mod junk_cards;
mod media;
mod pile;
mod setup;
