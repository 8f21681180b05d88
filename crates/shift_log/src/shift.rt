// A shift: how long it lasts, and when the brake acts.
ghost use Rattle.std.specs.Prelude.{◌≡◌};
ghost use Rattle.shift_log.specs.Records.{brakes_at};
ghost use Rattle.shift_log.specs.Recording.{puts, second_calls};

use std::fmt;

#[derive(Clone, Copy, PartialEq, Eq, Debug)]
pub struct Shift {
    pub seconds: u32,
    // the brake acts in the last of so many seconds; 0: never. An Option would be no plainer: 0 stands for it on the
    // command line and in the theorems too.
    pub brake_every: u32,
}

impl Shift {
    // Does the brake act in this second?
    pub fn brakes_at(self, second: u32) -> bool
        ensures { result ≡ brakes_at self.brake_every second }
    {
        self.brake_every != 0 && second % self.brake_every == self.brake_every - 1
    }

    // How many blocks a second puts: the encoder's, and two more for a brake action.
    pub fn blocks_of(self, second: u32) -> u32
        ensures { result ≡ puts (second_calls self.brake_every second) }
    {
        if self.brakes_at(second) { 3 } else { 1 }
    }
}

impl fmt::Display for Shift {
    fn fmt<W: fmt::Write>(&self, f: &mut fmt::Formatter<W>) -> fmt::Result {
        let Shift {
            seconds,
            brake_every,
        } = *self;
        write!(f, "a shift of {seconds} seconds, ")?;
        match brake_every {
            0 => write!(f, "no brake action"),
            _ => write!(f, "a brake action every {brake_every}"),
        }
    }
}
