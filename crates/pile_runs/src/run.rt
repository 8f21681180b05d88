// A list of calls played over a medium under caches.
ghost use Rattle.std.specs.Prelude.{◌≡◌, ◌≤◌, length, IfOk, IsOkUnless, map};
ghost use Rattle.session.specs.Sessions.{call_of};
ghost use Rattle.piles.specs.Orders.{bottom, under_caches};
ghost use Rattle.piles.specs.declared.order.PileError.TheVariants.{NoMemory};
ghost use Rattle.pile_runs.specs.Runs.{RunOf};

use piles::{Bottom, Parts, Pile, PileError, Task, with_pile};
use recorder_options::CacheKind;
use session::{Call, Reply, Session, play};
use std::alloc::{AllocError, Global};

// The replies, and what was left: how many contents the caches held, and the medium.
#[derive(Drop)]
pub struct Run {
    pub replies: Vec<Reply>,
    pub pending: usize,
    pub bottom: Bottom,
}

#[derive(Drop)]
struct Play<'a> {
    heap: Global,
    calls: &'a [Call<'a>],
}

impl Task for Play<'_> {
    type Output = Result<Run, AllocError>;

    ghost gives = { λ task steps meaning held state output. IfOk output (RunOf steps meaning held state (map call_of task.calls.now)) };

    fn run<S: Pile>(self, pile: S) -> Result<Run, AllocError> {
        let Session { module, replies } = play(self.heap, pile, self.calls)?;
        let Parts { pending, bottom } = module.into_store().into_parts();
        Ok(Run {
            replies,
            pending,
            bottom,
        })
    }
}

// MAKE over the medium under these caches, and then the calls.
pub fn play_over(
    heap: Global,
    medium: Bottom,
    caches: &[CacheKind],
    calls: &[Call<'_>],
) -> Result<Run, PileError>
    ensures memory { length caches.now ≤ 3 → IsOkUnless result NoMemory }
    ensures run { IfOk result (λ run. let p = under_caches caches.now (bottom medium) in RunOf p.steps p.meaning p.held p.state (map call_of calls.now) run) }
{
    Ok(with_pile(heap, medium, caches, Play { heap, calls })??)
}
