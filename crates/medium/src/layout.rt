// How the blocks of a medium lie in its memory.
ghost use Rattle.std.specs.Prelude.{◌≡◌, ℕ, ◌-◌, ◌<◌, ◌≤◌, Bool, true, length, vec_len, IfErr, MatchResult};
ghost use Rattle.std.specs.declared.alloc.Global.{Global};
ghost use Rattle.std.specs.declared.vec.Vec.{Vec};
ghost use Rattle.store.specs.Steps.{Content};
ghost use Rattle.store.specs.Keeps.{Keeps};
ghost use Rattle.medium.specs.Medium.{Medium, Fit, medium_steps, medium_meaning};

use std::alloc::AllocFailed;
use store::BLOCK_BYTES;

// A layout owns the memory, and reads and writes one block of it. The count, the grant and the refusals are
// those of every medium (`BlockMedium`).
pub trait Layout {
    // a medium so laid out, as its steps see it
    ghost Model: { Type 0 };

    // the model of a medium with this layout, block count and grant
    ghost model: { Self → ℕ → ℕ → Model };

    // what each block shows, and what a store of one leaves
    ghost medium: { Medium Model };

    // what is true of the model of every such medium
    ghost good: { Model → Type 0 };

    // the law of a store of a block with a content, in the layout's words
    ghost stores: { ℕ → Content → Model → Model → Type 0 };

    // how many bytes so many blocks need
    ghost needed: { ℕ → ℕ };

    ghost bytes: { Self → Vec ℕ Global };

    // was the layout made for so many blocks?
    ghost made: { Self → ℕ → Bool };

    // how the layout of a new medium is, beside its memory
    ghost fresh: { Self → Type 0 };

    // may a layout be refused? Not where nothing is kept beside the memory.
    ghost refusable: { Type 0 };

    // How many bytes so many blocks need.
    fn needed(count: u32) -> usize
        ensures { result ≡ needed count };

    // A layout for so many blocks over memory with room for them, which is left as it is. It comes back where there is
    // no memory for what the layout keeps beside it.
    fn over(memory: Vec<u8>, count: u32) -> Result<Self, AllocFailed<Vec<u8>>>
        requires { needed count ≤ vec_len memory }
        ensures layout { MatchResult result (λ layout. (bytes layout ≡ memory) × (made layout count ≡ true) × fresh layout) (λ back. back.value ≡ memory) }
        ensures refused { IfErr result (λ _. refusable) };

    // The memory back.
    fn into_memory(self) -> Vec<u8>
        ensures { result ≡ bytes self };

    // What the block shows.
    fn content(&self, count: u32, block: u32) -> [u8; BLOCK_BYTES]
        requires inside { block < count }
        requires room { needed count ≤ vec_len (bytes self.now) }
        requires made { made self.now count ≡ true }
        ensures { (grant : ℕ) → result ≡ medium.shown (model self.now count grant) block };

    // One store: the block takes the content.
    fn store(&mut self, count: u32, block: u32, content: &[u8; BLOCK_BYTES])
        requires inside { block < count }
        requires room { needed count ≤ vec_len (bytes self.old) }
        requires made { made self.old count ≡ true }
        ensures puts { (grant : ℕ) → model self.new count (grant - 1) ≡ medium.put (model self.old count grant) block content.now }
        ensures len { vec_len (bytes self.new) ≡ vec_len (bytes self.old) }
        ensures kept { made self.new count ≡ true };

    // the model has the medium's count and grant
    ghost counts: { (l : Self) (count grant : ℕ) → medium.count (model l count grant) ≡ count };

    ghost grants: { (l : Self) (count grant : ℕ) → medium.grant (model l count grant) ≡ grant };

    // the model of a medium that fits is good
    ghost valid: { (l : Self) (count grant : ℕ) → Fit count grant (needed count) (vec_len (bytes l)) → good (model l count grant) };

    ghost keeps: { Keeps (medium_steps medium) (medium_meaning medium) good };

    // what a put leaves is as `stores` says
    ghost lawful: { (s : Model) (b : ℕ) (x : Content) → good s → length x ≡ 512 → b < medium.count s → stores b x s (medium.put s b x) };
}
