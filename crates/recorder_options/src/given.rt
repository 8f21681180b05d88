// The options so far, read word by word.
ghost use Rattle.std.specs.Prelude.{◌≡◌, IfOk, map};
ghost use Rattle.std.specs.String.{string_bytes};
ghost use Rattle.recorder_options.specs.Faults.{Gives};
ghost use Rattle.recorder_options.specs.Given.{InRange, number, named, valued, read, ended, given, nothing_given};

use crate::error::{Expected, OptionsError, meant};
use crate::kinds::{Mode, Name, Setting, option_named};
use script::{number, number_between};
use std::alloc::Global;

pub const MOST_BLOCKS: u32 = 16_777_216;

#[derive(Clone, Copy)]
pub struct Given {
    pub blocks: Option<u32>,
    pub pages: Option<u32>,
    pub grant: Option<u32>,
    pub mode: Mode,
    // the next word is its value
    pub awaited: Option<Setting>,
}

const NOTHING: Given = Given {
    blocks: None,
    pages: None,
    grant: None,
    mode: Mode::Play,
    awaited: None,
};

impl Given {
    fn number(self, setting: Setting) -> Option<u32>
        ensures { result ≡ number self setting }
    {
        match setting {
            Setting::Blocks => self.blocks,
            Setting::Pages => self.pages,
            Setting::Grant => self.grant,
        }
    }

    // An option's name is read.
    fn named(self, name: Name) -> Result<Given, OptionsError>
        ensures value { Gives (λ g. g) result (named self name) }
        ensures blocks { IfOk result (λ g. g.blocks ≡ self.blocks) }
    {
        match (name, self.mode) {
            (Name::Number(setting), _) => {
                if self.number(setting).is_some() {
                    return Err(OptionsError::Twice(name));
                }
                Ok(Given {
                    awaited: Some(setting),
                    ..self
                })
            }
            (Name::Map, Mode::Play) => Ok(Given {
                mode: Mode::Map,
                ..self
            }),
            (Name::Serve, Mode::Play) => Ok(Given {
                mode: Mode::Serve,
                ..self
            }),
            (Name::Map, Mode::Map) | (Name::Serve, Mode::Serve) => Err(OptionsError::Twice(name)),
            (Name::Map, Mode::Serve) | (Name::Serve, Mode::Map) => Err(OptionsError::MapWithServe),
        }
    }

    // The value of a setting is read.
    fn valued(self, heap: Global, setting: Setting, word: &[u8]) -> Result<Given, OptionsError>
        requires { InRange self }
        ensures value { Gives (λ g. g) result (valued self setting word.now) }
        ensures blocks { IfOk result InRange }
    {
        let expected = Expected::Value(setting);
        let given = Given {
            awaited: None,
            ..self
        };
        Ok(match setting {
            Setting::Blocks => {
                let blocks = meant(heap, expected, word, number_between(word, 1, MOST_BLOCKS))?;
                Given {
                    blocks: Some(blocks),
                    ..given
                }
            }
            Setting::Pages => {
                let pages = meant(heap, expected, word, number_between(word, 2, u32::MAX))?;
                Given {
                    pages: Some(pages),
                    ..given
                }
            }
            Setting::Grant => {
                let grant = meant(heap, expected, word, number(word))?;
                Given {
                    grant: Some(grant),
                    ..given
                }
            }
        })
    }

    // The next word is read.
    #[tactic(auto, unfolding(crate::specs::Given::read))]
    fn read(self, heap: Global, word: &[u8]) -> Result<Given, OptionsError>
        requires { InRange self }
        ensures value { Gives (λ g. g) result (read self word.now) }
        ensures blocks { IfOk result InRange }
    {
        match self.awaited {
            Some(setting) => self.valued(heap, setting, word),
            None => {
                let name = meant(heap, Expected::Option, word, option_named(word))?;
                self.named(name)
            }
        }
    }

    // No word is left.
    fn ended(self) -> Result<Given, OptionsError>
        ensures value { Gives (λ g. g) result (ended self) }
        ensures blocks { IfOk result (λ g. g.blocks ≡ self.blocks) }
    {
        match self.awaited {
            Some(setting) => Err(OptionsError::Ended(Expected::Value(setting))),
            None => Ok(self),
        }
    }

    // What the words give.
    pub fn by(heap: Global, words: &[String]) -> Result<Given, OptionsError>
        ensures value { Gives (λ g. g) result (given nothing_given (map string_bytes words.now)) }
        ensures blocks { IfOk result InRange }
    {
        let mut given = NOTHING;
        for word in words {
            given = given.read(heap, word.as_bytes())?;
        }
        given.ended()
    }
}
