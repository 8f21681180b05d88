// The settings of the mode page that a host can change, and the bytes of the page.
ghost use Rattle.std.specs.Prelude.{◌≡◌, if◌then◌else◌};
ghost use Rattle.logical_unit.specs.ModePage.{default_settings, selected, mode_data};

use commands::{MODE_BYTES, MODE_PAGE, MODE_PAGE_LENGTH};

#[derive(Clone, Copy, PartialEq, Eq, Debug)]
pub struct Settings {
    // write cache disable: each WRITE is forced to the medium
    pub wcd: bool,
    // power against performance
    pub performance: u8,
    // write disable: each WRITE is refused
    pub writed: bool,
}

// PS: the page can be saved
const PAGE_CODE: u8 = 0x80 | MODE_PAGE;

fn flag(on: bool, weight: u8) -> u8
    ensures { result ≡ (if on then weight else 0) }
{
    u8::from(on) * weight
}

impl Default for Settings {
    ghost is_default = { λ settings. settings ≡ default_settings };

    fn default() -> Settings {
        Settings {
            wcd: false,
            performance: 0x80,
            writed: false,
        }
    }
}

// No TryFrom: a list of another length is no error, and changes nothing. No From: the mode data needs the count too.
impl Settings {
    // The settings in a parameter list of MODE SELECT; none if it is not 17 bytes long.
    pub fn from_list(list: &[u8]) -> Option<Settings>
        ensures { result ≡ selected list.now }
    {
        let list: &[u8; MODE_BYTES] = list.try_into().ok()?;
        Some(Settings {
            wcd: list[6] & 1 != 0,
            performance: list[14],
            writed: list[15] & 4 != 0,
        })
    }

    // What MODE SENSE returns for a medium of `count` blocks: a header of four bytes, and the page.
    #[tactic(auto, unfolding(crate::specs::ModePage::mode_data))]
    pub fn mode_data(self, count: u32) -> [u8; MODE_BYTES]
        ensures { result ≡ mode_data count self }
    {
        let [a, b, c, d] = count.to_be_bytes();
        [
            0x10,
            0,
            0,
            0,
            PAGE_CODE,
            MODE_PAGE_LENGTH,
            flag(self.wcd, 1),
            2,
            0,
            0,
            a,
            b,
            c,
            d,
            self.performance,
            2 + flag(self.writed, 4),
            0,
        ]
    }
}
