// The published sizes; aut68's Sizes has the same numbers for the contracts.

// A cell of the term store and of the working store, and how many values it has.
pub type Cell = u32;

pub const CELL_VALUES: usize = 4294967296;

// A cell of a shelf that was stored before cells had 32 bits, and how many values it has.
pub type NarrowCell = u16;

pub const NARROW_VALUES: Cell = 65536;

// A cell is CELL_FACTOR × number + kind.
pub const CELL_FACTOR: Cell = 8;

// Lines have numbers from 1 up to LAST_LINE; line LINE_LIMIT has no room.
pub const LINE_LIMIT: usize = 65536;

pub const LAST_LINE: usize = LINE_LIMIT - 1;

// The limit L of an expression's cells.
pub const SMALLEST_LIMIT: usize = 16;

pub const LARGEST_LIMIT: usize = 4096;

// The working store has WORK_UNITS × L cells.
pub const WORK_UNITS: usize = 128;

// How deep expressions may be nested and comparisons may go.
pub const NESTING: usize = 32;

// How many bytes a name may have, and a book.
pub const NAME_LIMIT: usize = 32;

pub const BOOK_LIMIT: usize = 16777215;

// A line's row in the table: how many cells it has, and which is which.
pub const ROW_WIDTH: usize = 9;

pub const NAME_START: usize = 0;

pub const NAME_LENGTH: usize = 1;

pub const INDICATOR: usize = 2;

pub const CONTEXT_LENGTH: usize = 3;

pub const KIND: usize = 4;

pub const MIDDLE_START: usize = 5;

pub const CATEGORY_START: usize = 6;

pub const CATEGORY_END: usize = 7;

pub const PARAGRAPH: usize = 8;

// How many paragraphs may be open together.
pub const OPEN_LIMIT: usize = 32;

// A printed row: NUMBER_COLUMNS columns, a blank one, TEXT_COLUMNS columns, and byte 10.
pub const NUMBER_COLUMNS: usize = 5;

pub const TEXT_COLUMNS: usize = 66;

pub const PAGE_ROW: usize = 73;
