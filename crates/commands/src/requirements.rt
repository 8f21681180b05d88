// What is asked of each command before it runs.
ghost use Rattle.std.specs.Prelude.{◌≡◌};
ghost use Rattle.commands.specs.Carried.{order};
ghost use Rattle.commands.specs.Requirements.{is_inquiry, passes_reservation, valid_fields, uses_medium, in_range, writes, unloads, valid_list_length, returned, supplied, mode_list, valid_parameters};

use crate::command::Command;
use crate::fields::{PageControl, PowerCondition, Removal};
use crate::sizes::{CAPACITY_BYTES, INQUIRY_BYTES, MODE_BYTES, MODE_PAGE, MODE_PAGE_LENGTH};

const ALL_PAGES: u8 = 0x3f;

impl Command<'_> {
    // It is served while a unit attention is pending.
    pub fn is_inquiry(self) -> bool
        ensures { result ≡ is_inquiry (order self.entry) }
    {
        matches!(self, Command::Inquiry { .. })
    }

    // Is it served while another host holds the reservation?
    pub fn passes_reservation(self) -> bool
        ensures { result ≡ passes_reservation (order self.entry) }
    {
        match self {
            Command::Inquiry { .. } | Command::Release | Command::ReadCapacity => true,
            Command::PreventAllow { removal } => removal == Removal::Allowed,
            Command::StartStopUnit { request } => request.starts(),
            _ => false,
        }
    }

    pub fn has_valid_fields(self) -> bool
        ensures { result ≡ valid_fields (order self.entry) }
    {
        match self {
            Command::Inquiry { vital, page, .. } => !vital && page == 0,
            Command::ModeSense { control, page, .. } => {
                matches!(
                    control,
                    PageControl::Current | PageControl::Defaults | PageControl::Saved
                ) && matches!(page, MODE_PAGE | ALL_PAGES)
            }
            Command::StartStopUnit { request } => {
                !matches!(request.condition, PowerCondition::Reserved(_))
            }
            Command::PreventAllow { removal } => !matches!(removal, Removal::Reserved(_)),
            Command::Read { relative, .. }
            | Command::Write { relative, .. }
            | Command::Verify { relative, .. } => !relative,
            _ => true,
        }
    }

    // Does it need a medium that is loaded and ready?
    pub fn uses_medium(self) -> bool
        ensures { result ≡ uses_medium (order self.entry) }
    {
        match self {
            Command::TestUnitReady
            | Command::ReadCapacity
            | Command::Read { .. }
            | Command::Write { .. }
            | Command::Verify { .. }
            | Command::SynchronizeCache => true,
            _ => false,
        }
    }

    // Do its blocks end within the count? The sum does not wrap.
    pub fn is_in_range(self, count: u32) -> bool
        ensures { result ≡ in_range count (order self.entry) }
    {
        match self {
            Command::Read { extent, .. }
            | Command::Write { extent, .. }
            | Command::Verify { extent, .. } => extent.ends_within(count),
            _ => true,
        }
    }

    pub fn writes(self) -> bool
        ensures { result ≡ writes (order self.entry) }
    {
        matches!(self, Command::Write { .. })
    }

    pub fn unloads(self) -> bool
        ensures { result ≡ unloads (order self.entry) }
    {
        match self {
            Command::StartStopUnit { request } => request.unloads(),
            _ => false,
        }
    }

    pub fn has_valid_list_length(self) -> bool
        ensures { result ≡ valid_list_length (order self.entry) }
    {
        match self {
            Command::ModeSelect { length, .. } => length == 0 || usize::from(length) == MODE_BYTES,
            _ => true,
        }
    }

    // How many bytes it returns.
    pub fn returned(self) -> usize
        ensures { result ≡ returned (order self.entry) }
    {
        match self {
            Command::Inquiry { allocation, .. } => usize::from(allocation).min(INQUIRY_BYTES),
            Command::ModeSense { allocation, .. } => usize::from(allocation).min(MODE_BYTES),
            Command::ReadCapacity => CAPACITY_BYTES,
            Command::Read { extent, .. } => extent.byte_count(),
            _ => 0,
        }
    }

    // Has the host sent the bytes that it takes?
    pub fn is_supplied(self) -> bool
        ensures { result ≡ supplied (order self.entry) }
    {
        match self {
            Command::ModeSelect { length, list } => list.len() == usize::from(length),
            Command::Write { extent, data, .. } => data.len() == extent.byte_count(),
            _ => true,
        }
    }

    // Is the parameter list of MODE SELECT, if there is one, laid out as MODE SENSE returns it?
    pub fn has_valid_parameters(self) -> bool
        ensures { result ≡ valid_parameters (order self.entry) }
    {
        match self {
            Command::ModeSelect { list, .. } => is_mode_list(list),
            _ => true,
        }
    }
}

// An empty list sets nothing; any other has a header that ends in zeros, and then the page with its length.
fn is_mode_list(list: &[u8]) -> bool
    ensures { result ≡ mode_list list.now }
{
    match list {
        [] => true,
        [_, 0, 0, 0, page, MODE_PAGE_LENGTH, ..] => *page & 0x3f == MODE_PAGE,
        _ => false,
    }
}
