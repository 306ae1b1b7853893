// The limits of the product, each with its unit.

/// The most bytes of a source text.
pub const MAX_SOURCE_BYTES: u32 = 1_048_576;

/// The most bytes of a tables text.
pub const MAX_TABLES_BYTES: u32 = 67_108_864;

/// The most bytes of a code text.
pub const MAX_CODE_BYTES: u32 = 67_108_864;

/// The most tables of a program or a code.
pub const MAX_TABLES: usize = 16;

/// The most cells of all tables together.
pub const MAX_TABLE_CELLS: u32 = 4_000_000;

/// The most rows of one table, and the most columns.
pub const MAX_SIDE: u32 = 4_000_000;

/// The most functions of a program.
pub const MAX_FUNCTIONS: usize = 64;

/// The most parameters of a function.
pub const MAX_PARAMETERS: usize = 8;

/// The most declarations of variables in a function or in main.
pub const MAX_DECLARED_VARIABLES: usize = 200;

/// The most cells of an activation.
pub const MAX_ACTIVATION_CELLS: u16 = 512;

/// The greatest height of an expression; a literal has height 1.
pub const MAX_EXPRESSION_HEIGHT: u32 = 24;

/// The most tokens of an expression that isn't inside another one.
pub const MAX_EXPRESSION_TOKENS: usize = 256;

/// The most blocks round a statement; those of main and of a function are level 1.
pub const MAX_BLOCK_NESTING: u32 = 32;

/// The most `par` loops inside one another.
pub const MAX_PAR_NESTING: u32 = 8;

/// The most reduced variables of a `par`.
pub const MAX_REDUCTIONS: usize = 8;

/// The most carry items of a `par`.
pub const MAX_CARRIES: usize = 4;

/// The greatest depth of calls; main has depth 0.
pub const MAX_CALL_DEPTH: u32 = 10_000;

/// The most iterations of a `par`.
pub const MAX_PAR_LENGTH: u64 = 1_099_511_627_776;

/// The most blocks of a code.
pub const MAX_BLOCKS: u32 = 65_536;

/// The number of registers of a task.
pub const REGISTERS: u8 = 32;

/// The join records for each worker.
pub const RECORDS_PER_WORKER: u32 = 64;

/// The greatest fuel, in ticks.
pub const MAX_FUEL: u64 = 1_000_000_000_000;

/// The greatest heartbeat, in instructions.
pub const MAX_BEAT: u64 = 1_000_000_000;

/// The most workers of a run.
pub const MAX_WORKERS: u32 = 16;

/// The most diversions that a worker may be asked to make.
pub const MAX_FORKS: u32 = 1_000_000;

/// The greatest position of a stack, in cells.
pub const MAX_STACK_POSITION: u64 = 4_611_686_018_427_387_904;
