// The sizes of a call file and the places of its header's fields, each under one name.

// The bytes of the header.
pub const HEADER: usize = 16;

// The bytes of a group's entry.
pub const ENTRY: usize = 20;

// The bytes of a call without its card.
pub const CALL: usize = 3;

// The bytes of the longest file.
pub const LONGEST: usize = 65_535;

// The largest number in a call.
pub const LARGEST: u32 = 255;

// The byte of the header where each field begins; the kinds are one byte, the others numbers of two.
pub const CARD_KIND_AT: usize = 0;

pub const BOOK_KIND_AT: usize = 1;

pub const TERMINALS_AT: usize = 2;

pub const FOUNDER_AT: usize = 4;

pub const GROUPS_AT: usize = 6;

pub const GROUPS_OFFSET_AT: usize = 8;

pub const CARD_OFFSET_AT: usize = 10;

pub const CALLS_AT: usize = 12;

pub const CALLS_OFFSET_AT: usize = 14;
