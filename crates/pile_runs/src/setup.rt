// A run as the command line asks for it.
ghost use Rattle.std.specs.Prelude.{◌≡◌, IfOk, IfErr, map};
ghost use Rattle.session.specs.Sessions.{call_of};
ghost use Rattle.pile_runs.specs.Setups.{kind_of, IsWantOfMemory, RunWith};
ghost use Rattle.pile_runs.specs.declared.setup.PlayError.TheVariants as errors;

use crate::run::{Run, play_over};
use piles::{MediumError, MediumKind, PileError, new_medium};
use recorder_options::{Medium, Options};
use session::Call;
use std::alloc::Global;
use thiserror::Error;

// Why calls are not played.
#[derive(Clone, Copy, PartialEq, Eq, Debug, Error)]
pub enum PlayError {
    #[error("{0}")]
    Medium(MediumError),
    #[error("{0}")]
    Pile(PileError),
}

impl From<MediumError> for PlayError {
    ghost from_gives = { λ error play_error. play_error ≡ errors.Medium error };

    fn from(error: MediumError) -> PlayError {
        PlayError::Medium(error)
    }
}

impl From<PileError> for PlayError {
    ghost from_gives = { λ error play_error. play_error ≡ errors.Pile error };

    fn from(error: PileError) -> PlayError {
        PlayError::Pile(error)
    }
}

// The medium's kind.
pub fn medium_kind(options: &Options) -> MediumKind
    ensures { result ≡ kind_of options.now.medium options.now.pages }
{
    match options.medium {
        Medium::Flat => MediumKind::Flat,
        Medium::Card => MediumKind::Card {
            pages: options.pages,
        },
    }
}

// The calls on a new module over a new pile, with this grant of block stores.
pub fn play_with(
    heap: Global,
    options: &Options,
    grant: u32,
    calls: &[Call<'_>],
) -> Result<Run, PlayError>
    ensures run { IfOk result (RunWith options.now grant (map call_of calls.now)) }
    ensures memory { IfErr result IsWantOfMemory }
{
    let medium = new_medium(heap, medium_kind(options), options.blocks, grant)?;
    Ok(play_over(heap, medium, &options.caches, calls)?)
}
