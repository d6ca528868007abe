//! The limits of what the program takes, each named once. Lengths are in bytes, and a limit is the
//! greatest or least number that still passes.

/// The most bytes of a text.
pub const MOST_TEXT_BYTES: usize = 4096;

/// The most items of a list.
pub const MOST_ITEMS: usize = 256;

/// The most decimal places of a decimal.
pub const MOST_PLACES: u8 = 6;

/// The most bytes of a declared name.
pub const MOST_NAME_BYTES: usize = 40;

/// The most applications of a system.
pub const MOST_APPS: usize = 16;

/// The most classes of an application.
pub const MOST_CLASSES: usize = 64;

/// The most rules of an application.
pub const MOST_RULES: usize = 64;

/// The most fields of a class or an event, and the most parameters of a command.
pub const MOST_FIELDS: usize = 32;

/// The most events of a class beside the one that creates.
pub const MOST_EVENTS: usize = 32;

/// The most commands of a class.
pub const MOST_COMMANDS: usize = 32;

/// The most guards of a command.
pub const MOST_GUARDS: usize = 16;

/// The most edits of an upcast.
pub const MOST_EDITS: usize = 16;

/// The most triggers of a command.
pub const MOST_TRIGGERS: usize = 8;

/// The most upcasts of an event or a class.
pub const MOST_UPCASTS: usize = 100;

/// The most pipes of a system.
pub const MOST_PIPES: usize = 32;

/// The least applications that a pipe names.
pub const LEAST_MEMBERS: usize = 2;

/// The most applications that a pipe names.
pub const MOST_MEMBERS: usize = 16;

/// The most levels of an expression.
pub const MOST_LEVELS: usize = 16;

/// The most nodes of an expression.
pub const MOST_NODES: usize = 200;

/// The most bytes of a declaration.
pub const MOST_DOCUMENT_BYTES: usize = 1_048_576;

/// The most bytes of an input's line.
pub const MOST_LINE_BYTES: u64 = 65_536;

/// The most bytes of an input.
pub const MOST_INPUT_BYTES: u64 = 1_073_741_824;

/// The greatest version of a class.
pub const MOST_CLASS_VERSION: u64 = 1_000_000;

/// The most versions from one snapshot to the next.
pub const MOST_INTERVAL: u64 = 1_000_000;

/// The most notifications of a section.
pub const MOST_SECTION: u64 = 1000;

/// The most notifications of a section of an application that doesn't declare how many.
pub const DEFAULT_SECTION: u64 = 10;

/// The greatest id that a section may be asked for.
pub const MOST_ASKED: u64 = 1_099_511_627_776;

/// The most digits of an id that a section is asked for.
pub const MOST_DIGITS: usize = 13;

/// The turns of a run that isn't told how many it may take.
pub const DEFAULT_TURNS: u64 = 1_000_000;

/// The most recordings that a recorder may be asked to hold.
pub const MOST_CAPACITY: u64 = 1_099_511_627_776;

/// The greatest version that a line may expect.
pub const MOST_EXPECTED: u64 = 1_099_511_627_776;

/// The end of the numbers that a recorder gives, each of which is below it.
pub const NUMBERS_END: u64 = 4_611_686_018_427_387_904;
