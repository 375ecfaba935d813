//! The limits of both programs, each said once.

/// The least end of the integer variables.
pub const MIN_END: i32 = -1_073_741_823;

/// The greatest end of the integer variables: one more still fits a literal's number.
pub const MAX_END: i32 = 1_073_741_823;

/// The deepest that functions and tuples nest in a symbol; a number, an identifier and a text have depth 0.
pub const MAX_DEPTH: u16 = 256;

/// The most symbols of a table, so that each id is a `u32`.
pub const MAX_SYMBOLS: usize = 4_294_967_295;

/// The deepest that argument lists, parentheses and signs nest in a text.
pub const MAX_NESTING: usize = 64;

/// The most variables of a rule, those of `_` and of intervals counted.
pub const MAX_VARIABLES: usize = 64;

/// The most FILEs of a command.
pub const MAX_FILES: usize = 65_536;

/// The most tuples of a set, and the most integer variables in it.
pub const MAX_TUPLES: usize = 65_536;

/// The most bytes of a text.
pub const MAX_TEXT_BYTES: usize = 16_777_216;

/// The most bytes of all texts of a program together.
pub const MAX_PROGRAM_BYTES: usize = 67_108_864;

/// The most bytes of a derivation.
pub const MAX_DERIVATION_BYTES: u64 = 1_099_511_627_776;

/// The most ground instances that a program may have, where no limit is given.
pub const DEFAULT_GROUND_LIMIT: u64 = 1_048_576;

/// The greatest limit of ground instances that may be given; the least is 1.
pub const MAX_GROUND_LIMIT: u64 = 4_194_304;
