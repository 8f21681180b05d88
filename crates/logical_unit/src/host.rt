// The hosts that the logical unit knows, by their numbers.
ghost use Rattle.std.specs.Prelude.{◌≡◌, ◌<◌, ◌≤◌, MatchResult};
ghost use Rattle.sense.specs.declared.CommandError.TheVariants.{NoSuchHost};

use sense::CommandError;

pub const HOSTS: u32 = 4;

#[derive(Clone, Copy, PartialEq, Eq, Debug)]
pub struct Host {
    number: u32,
    pub ghost known: { number < 4 },
}

impl TryFrom<u32> for Host {
    ghost use Rattle.logical_unit.specs.Hosts.{host_number};

    type Error = CommandError;

    ghost try_from_gives = { λ number r. MatchResult r (λ host. host_number host ≡ number) (λ e. (4 ≤ number) × (e ≡ NoSuchHost)) };

    fn try_from(number: u32) -> Result<Host, CommandError> {
        if number < HOSTS {
            Ok(Host { number })
        } else {
            Err(CommandError::NoSuchHost)
        }
    }
}

impl Host {
    ghost use Rattle.logical_unit.specs.Hosts.{host_number};

    pub fn number(self) -> u32
        ensures { result ≡ host_number self }
    {
        self.number
    }

    // Its place in a list of one value for each host.
    pub(crate) fn index(self) -> usize
        ensures value { result ≡ host_number self }
        ensures known { result < 4 }
    {
        self.number() as usize
    }
}
