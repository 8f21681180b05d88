// The state: medium, power condition, reservation, removal bars, unit attentions, settings.
ghost use Rattle.std.specs.Prelude.{◌≡◌};
ghost use Rattle.commands.specs.Codes.{power_code, control_code};
ghost use Rattle.logical_unit.specs.Hosts.{host_number};
ghost use Rattle.logical_unit.specs.State.{new_unit, higher, pending, raised_all, raised_others, cleared, barred, reserved, released, started, settings_changed, shown_settings, unit_reset};

use crate::host::{HOSTS, Host};
use crate::settings::Settings;
use commands::{PageControl, PowerCondition, StartStop};
use sense::Attention;

const HOST_COUNT: usize = HOSTS as usize;

#[derive(Clone, Copy, PartialEq, Eq, Debug)]
pub enum Condition {
    Active,
    Idle,
    Standby,
    Sleep,
    Stopped,
}

// Bars and attentions are two lists by host, and no list of hosts: MAKE and RESET alone speak of both.
#[derive(Clone, Copy, PartialEq, Eq, Debug)]
pub struct LogicalUnit {
    pub loaded: bool,
    pub condition: Condition,
    // the number of the host that holds the reservation: `reserve` and `release` take any number
    pub holder: Option<u32>,
    // for each host: it prevents the removal of the medium
    pub bars: [bool; HOST_COUNT],
    // for each host: the attention that it has still to be told
    pub attentions: [Option<Attention>; HOST_COUNT],
    pub settings: Settings,
}

// The new attention, unless a higher one is pending.
fn higher(pending: Option<Attention>, new: Attention) -> Attention
    ensures { result ≡ higher pending new }
{
    pending.map_or(new, |pending| pending.min(new))
}

impl LogicalUnit {
    pub fn new() -> LogicalUnit
        ensures { result ≡ new_unit }
    {
        LogicalUnit {
            loaded: true,
            condition: Condition::Active,
            holder: None,
            bars: [false; HOST_COUNT],
            attentions: [Some(Attention::PowerOnOrReset); HOST_COUNT],
            settings: Settings::default(),
        }
    }

    // The attention that the host has still to be told.
    pub fn attention(&self, host: Host) -> Option<Attention>
        ensures { result ≡ pending self.now (host_number host) }
    {
        self.attentions[host.index()]
    }

    // The host was told its attention; a host that the unit doesn't know has none.
    pub fn clear_attention(&mut self, host: u32)
        ensures { self.new ≡ cleared host self.old }
    {
        if let Ok(host) = Host::try_from(host) {
            self.attentions[host.index()] = None;
        }
    }

    // PREVENT ALLOW: the host's removal bar.
    pub fn set_bar(&mut self, host: Host, bar: bool)
        ensures { self.new ≡ barred (host_number host) bar self.old }
    {
        self.bars[host.index()] = bar;
    }

    fn raise_all(&mut self, new: Attention)
        ensures { self.new ≡ raised_all new self.old }
    {
        self.attentions = self.attentions.map(|pending| Some(higher(pending, new)));
    }

    fn raise_others(&mut self, host: Host, new: Attention)
        ensures { self.new ≡ raised_others (host_number host) new self.old }
    {
        let own = self.attention(host);
        self.raise_all(new);
        self.attentions[host.index()] = own;
    }

    // RESERVE: the host becomes the holder.
    pub fn reserve(&mut self, host: u32)
        ensures { self.new ≡ reserved host self.old }
    {
        self.holder = Some(host);
    }

    // RELEASE: only the holder's ends the reservation.
    pub fn release(&mut self, host: u32)
        ensures { self.new ≡ released host self.old }
    {
        if self.holder == Some(host) {
            self.holder = None;
        }
    }

    // RESET: the medium and the settings stay.
    pub fn reset(&mut self)
        ensures { self.new ≡ unit_reset self.old }
    {
        self.condition = Condition::Active;
        self.holder = None;
        self.bars = [false; HOST_COUNT];
        self.attentions = [Some(Attention::PowerOnOrReset); HOST_COUNT];
    }

    // MODE SENSE: the default settings, or the current ones.
    pub fn shown_settings(&self, control: PageControl) -> Settings
        ensures { result ≡ shown_settings (control_code control) self.now }
    {
        match control {
            PageControl::Defaults => Settings::default(),
            _ => self.settings,
        }
    }

    // MODE SELECT: if a setting changed, the other hosts learn of it.
    pub fn change_settings(&mut self, host: Host, settings: Settings)
        ensures { self.new ≡ settings_changed (host_number host) settings self.old }
    {
        if settings != self.settings {
            self.raise_others(host, Attention::ParametersChanged);
        }
        self.settings = settings;
    }

    // START STOP UNIT: the present state and the command together give the next.
    pub fn start_stop(&mut self, request: StartStop)
        ensures { self.new ≡ started (power_code request.condition) request.start request.load_eject self.old }
    {
        let was_loaded = self.loaded;
        (self.loaded, self.condition) = match (
            self.loaded,
            self.condition,
            request.condition,
            request.start,
            request.load_eject,
        ) {
            (loaded, _, PowerCondition::Active | PowerCondition::DeviceControl, _, _) => (
                loaded,
                Condition::Active,
            ),
            (loaded, _, PowerCondition::Idle, _, _) => (loaded, Condition::Idle),
            (loaded, _, PowerCondition::Standby, _, _) => (loaded, Condition::Standby),
            (loaded, _, PowerCondition::Sleep, _, _) => (loaded, Condition::Sleep),
            (_, _, PowerCondition::NoChange, false, true) => (false, Condition::Stopped),
            (loaded, _, PowerCondition::NoChange, false, false) => (loaded, Condition::Stopped),
            (_, _, PowerCondition::NoChange, true, true) => (true, Condition::Active),
            (loaded, _, PowerCondition::NoChange, true, false) => (loaded, Condition::Active),
            (loaded, condition, PowerCondition::Reserved(_), _, _) => (loaded, condition),
        };
        if self.loaded && !was_loaded {
            self.raise_all(Attention::MediumChanged);
        }
    }
}
