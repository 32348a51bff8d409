//! How long texts and lists may be, as `specs/Limits` has them.

/// How many bytes the name of a resource may have.
pub const LONGEST_RESOURCE: usize = 512;

/// How many bytes the name of an alarm type may have, with its module.
pub const LONGEST_TYPE: usize = 128;

/// How many bytes an alarm type's qualifier may have.
pub const LONGEST_QUALIFIER: usize = 255;

/// How many bytes an alarm's text may have.
pub const LONGEST_ALARM_TEXT: usize = 255;

/// How many bytes an operator's text may have.
pub const LONGEST_OPERATOR_TEXT: usize = 255;

/// How many bytes a description may have.
pub const LONGEST_DESCRIPTION: usize = 255;

/// How many bytes a pattern for qualifiers may have.
pub const LONGEST_PATTERN: usize = 255;

/// How many bytes an operator's name may have.
pub const LONGEST_OPERATOR_NAME: usize = 64;

/// How many bytes a shelf's name may have.
pub const LONGEST_SHELF_NAME: usize = 64;

/// How many alarms there may be, on the list and on the shelf together.
pub const MOST_ALARMS: usize = 10_000;

/// How many shelves there may be.
pub const MOST_SHELVES: usize = 64;

/// How many criteria on resources a shelf may have.
pub const MOST_SHELF_RESOURCES: usize = 64;

/// How many criteria on types a shelf may have.
pub const MOST_SHELF_TYPES: usize = 64;

/// How many identities an inventory may have.
pub const MOST_IDENTITIES: usize = 2000;

/// How many rows an inventory may have.
pub const MOST_ROWS: usize = 2000;

/// How many resources a row of the inventory may have.
pub const MOST_ROW_RESOURCES: usize = 64;

/// How many of an alarm's operator entries are kept, the newest.
pub const MOST_OPERATOR_ENTRIES: usize = 64;

/// How many notes are kept, the newest.
pub const MOST_NOTES: usize = 4096;

/// How many notes a page has.
pub const MOST_PAGE_NOTES: usize = 256;

/// The greatest `max-alarm-status-changes` that isn't infinite.
pub const MOST_STATUS_CHANGES: u16 = 65_535;

/// How many of one of the units of time an age may have that a filter asks for.
pub const MOST_AGE_UNITS: u16 = 65_535;

/// The name under which the server itself adds operator entries.
pub const OWN_NAME: &[u8] = b"alarmd";
