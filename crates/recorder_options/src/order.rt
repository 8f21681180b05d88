// ORDER: a medium, and the caches above it.
ghost use Rattle.std.specs.Prelude.{◌≡◌, ◌≤◌, IfOk, vec_len};
ghost use Rattle.std.specs.Option.{option_copied};
ghost use Rattle.script.specs.Parts.{parts_left};
ghost use Rattle.recorder_options.specs.Faults.{Gives};
ghost use Rattle.recorder_options.specs.Order.{caches_of, order_of, stack};

use crate::error::{Expected, OptionsError, meant};
use crate::kinds::{CacheKind, Medium, cache_named, medium_named};
use script::first_part;
use std::alloc::{AllocError, Global};

#[derive(Drop)]
pub struct Order {
    pub medium: Medium,
    // from the bottom up
    pub caches: Vec<CacheKind>,
}

const MOST_CACHES: usize = 3;

// The caches of the parts that are left.
fn caches_of(heap: Global, parts: Option<&[u8]>) -> Result<Vec<CacheKind>, OptionsError>
    ensures { Gives (λ v. v.items) result (caches_of (parts_left 43 (option_copied parts.entry))) }
{
    let mut caches = Vec::new(heap);
    let mut rest = parts;
    while let Some(left) = rest {
        let (name, others) = first_part(left, b'+');
        let cache = meant(heap, Expected::Cache, name, cache_named(name))?;
        caches
            .push(cache)
            .map_err(|_| OptionsError::Memory(AllocError))?;
        rest = others;
    }
    Ok(caches)
}

pub fn order_of(heap: Global, word: &[u8]) -> Result<Order, OptionsError>
    ensures value { Gives stack result (order_of word.now) }
    ensures few { IfOk result (λ order. vec_len order.caches ≤ 3) }
{
    let (name, others) = first_part(word, b'+');
    let medium = meant(heap, Expected::Medium, name, medium_named(name))?;
    let caches = caches_of(heap, others)?;
    if caches.len() > MOST_CACHES {
        return Err(OptionsError::TooManyCaches);
    }
    Ok(Order { medium, caches })
}
