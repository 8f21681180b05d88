// The bytes that commands return or take, and the mode page in them.

pub const INQUIRY_BYTES: usize = 36;

// a header of four bytes, and then the page
pub const MODE_BYTES: usize = 17;

// the page with the parameters of RBC devices
pub const MODE_PAGE: u8 = 0x06;

// how many bytes follow the page's code and length
pub const MODE_PAGE_LENGTH: u8 = 11;

pub const CAPACITY_BYTES: usize = 8;
