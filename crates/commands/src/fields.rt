// What the fields of commands ask for. A code that has no name here is Reserved, with its number.
ghost use Rattle.std.specs.Prelude.{◌≡◌, not, ◌&&◌, ◌||◌, ◌==◌};
ghost use Rattle.commands.specs.Codes.{power_code, control_code, prevent_code};

// The power condition of START STOP UNIT.
#[derive(Clone, Copy, PartialEq, Eq, Debug)]
pub enum PowerCondition {
    // Start and LoEj say what is to be done
    NoChange,
    Active,
    Idle,
    Standby,
    Sleep,
    DeviceControl,
    Reserved(u8),
}

impl From<u8> for PowerCondition {
    ghost from_gives = { λ code condition. power_code condition ≡ code };

    fn from(code: u8) -> PowerCondition {
        match code {
            0 => PowerCondition::NoChange,
            1 => PowerCondition::Active,
            2 => PowerCondition::Idle,
            3 => PowerCondition::Standby,
            5 => PowerCondition::Sleep,
            7 => PowerCondition::DeviceControl,
            reserved => PowerCondition::Reserved(reserved),
        }
    }
}

// The page control of MODE SENSE: which values of a page.
#[derive(Clone, Copy, PartialEq, Eq, Debug)]
pub enum PageControl {
    Current,
    Changeable,
    Defaults,
    Saved,
    Reserved(u8),
}

impl From<u8> for PageControl {
    ghost from_gives = { λ code control. control_code control ≡ code };

    fn from(code: u8) -> PageControl {
        match code {
            0 => PageControl::Current,
            1 => PageControl::Changeable,
            2 => PageControl::Defaults,
            3 => PageControl::Saved,
            reserved => PageControl::Reserved(reserved),
        }
    }
}

// What PREVENT ALLOW asks for.
#[derive(Clone, Copy, PartialEq, Eq, Debug)]
pub enum Removal {
    Allowed,
    Prevented,
    Reserved(u8),
}

impl From<u8> for Removal {
    ghost from_gives = { λ code removal. prevent_code removal ≡ code };

    fn from(code: u8) -> Removal {
        match code {
            0 => Removal::Allowed,
            1 => Removal::Prevented,
            reserved => Removal::Reserved(reserved),
        }
    }
}

// What START STOP UNIT asks for. Start and LoEj count where the power condition is not to change.
#[derive(Clone, Copy, PartialEq, Eq, Debug)]
pub struct StartStop {
    pub condition: PowerCondition,
    pub start: bool,
    pub load_eject: bool,
}

impl StartStop {
    pub fn starts(self) -> bool
        ensures { result ≡ (power_code self.condition == 0 && self.start) }
    {
        self.condition == PowerCondition::NoChange && self.start
    }

    pub fn unloads(self) -> bool
        ensures { result ≡ (power_code self.condition == 0 && (not self.start && self.load_eject)) }
    {
        self.condition == PowerCondition::NoChange && !self.start && self.load_eject
    }
    // SLEEP, STOPPED and unloading: what the cache holds goes to the medium first.
    pub fn flushes_first(self) -> bool
        ensures { result ≡ (power_code self.condition == 5 || (power_code self.condition == 0 && not self.start)) }
    {
        self.condition == PowerCondition::Sleep
            || (self.condition == PowerCondition::NoChange && !self.start)
    }
}
