// The grant of a medium: how many block stores it will still make.
ghost use Rattle.std.specs.Prelude.{◌≡◌, ◌-◌};
ghost use Rattle.medium.specs.Medium.{stored};

use store::{StoreError, require_power};

// One store is made; the last of the grant ends the power.
pub fn spend(grant: &mut u32) -> Result<(), StoreError>
    ensures left { grant.new ≡ grant.old - 1 }
    ensures answer { result ≡ stored (grant.old - 1) }
{
    *grant = grant.saturating_sub(1);
    require_power(*grant > 0)
}
