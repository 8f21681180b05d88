// The kinds of media, caches and modes, and the options, by their names.
ghost use Rattle.std.specs.Prelude.{◌≡◌};
ghost use Rattle.recorder_options.specs.Names.{medium_named, cache_named, option_named};

#[derive(Clone, Copy, PartialEq, Eq, Debug)]
pub enum Medium {
    Flat,
    Card,
}

#[derive(Clone, Copy, PartialEq, Eq, Debug)]
pub enum CacheKind {
    Table,
    Queue,
}

#[derive(Clone, Copy, PartialEq, Eq, Debug)]
pub enum Mode {
    Play,
    Map,
    Serve,
}

// What takes a number.
#[derive(Clone, Copy, PartialEq, Eq, Debug)]
pub enum Setting {
    Blocks,
    Pages,
    Grant,
}

// An option's name.
#[derive(Clone, Copy, PartialEq, Eq, Debug)]
pub enum Name {
    Number(Setting),
    Map,
    Serve,
}

pub fn medium_named(name: &[u8]) -> Option<Medium>
    ensures { result ≡ medium_named name.now }
{
    if name == b"flat".as_slice() {
        Some(Medium::Flat)
    } else if name == b"card".as_slice() {
        Some(Medium::Card)
    } else {
        None
    }
}

pub fn cache_named(name: &[u8]) -> Option<CacheKind>
    ensures { result ≡ cache_named name.now }
{
    if name == b"table".as_slice() {
        Some(CacheKind::Table)
    } else if name == b"queue".as_slice() {
        Some(CacheKind::Queue)
    } else {
        None
    }
}

pub fn option_named(name: &[u8]) -> Option<Name>
    ensures { result ≡ option_named name.now }
{
    if name == b"--blocks".as_slice() {
        Some(Name::Number(Setting::Blocks))
    } else if name == b"--pages".as_slice() {
        Some(Name::Number(Setting::Pages))
    } else if name == b"--grant".as_slice() {
        Some(Name::Number(Setting::Grant))
    } else if name == b"--map".as_slice() {
        Some(Name::Map)
    } else if name == b"--serve".as_slice() {
        Some(Name::Serve)
    } else {
        None
    }
}
