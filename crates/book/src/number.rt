// The numbers of a block's contents.
ghost use Rattle.std.specs.Prelude.{◌≡◌, map, length};
ghost use Rattle.book.specs.Numbers.{newest_equal, Newest};

use std::fmt;

#[derive(Clone, Copy, PartialEq, Eq, Debug, Default)]
pub struct Numbers {
    // the newest number whose content is the one found, 0 if none of them is
    pub found: usize,
    // how many contents were written
    pub latest: usize,
}

impl Numbers {
    // The numbers of a content that is found, in a block's row.
    pub fn of(row: &[&[u8]], found: &[u8]) -> Numbers
        ensures found { result.found ≡ newest_equal found.now (map (λ x. x.now) row.now) }
        ensures newest { Newest found.now (map (λ x. x.now) row.now) result.found }
        ensures latest { result.latest ≡ length row.now }
    {
        let mut newest = 0;
        for (i, content) in row.iter().enumerate() {
            if *content == found {
                newest = i + 1;
            }
        }
        Numbers {
            found: newest,
            latest: row.len(),
        }
    }
}

impl fmt::Display for Numbers {
    fn fmt<W: fmt::Write>(&self, f: &mut fmt::Formatter<W>) -> fmt::Result {
        let Numbers { found, latest } = *self;
        write!(f, "number {found} of {latest}")
    }
}
