#![tactic(auto)]

// What the module answers and leaves at each call, as step functions over any store, and the proofs of what one call
// does to the store: see specs/ and proofs/. The module itself is in `rbc`.
