// The stated limits of sources, descriptions, texts and runs. Lengths are in bytes.

/// The longest source, and the longest input of a run.
pub const SOURCE_LIMIT: u64 = 1_048_576;

/// The longest machine description.
pub const DESCRIPTION_LIMIT: u64 = 262_144;

/// The longest assembly text that is read to be run.
pub const TEXT_LIMIT: u64 = 67_108_864;

/// The longest name in a source.
pub const SOURCE_NAME_LIMIT: usize = 63;

/// The longest name in an assembly text.
pub const TEXT_NAME_LIMIT: usize = 64;

/// How many summaries the check of a description may make.
pub const SUMMARY_LIMIT: u32 = 4_000_000;

/// The greatest frame need of a function, in longwords.
pub const NEED_LIMIT: u32 = 1_024;

/// How many calls of a source may be active, the first of `main` included.
pub const ACTIVE_CALL_LIMIT: u32 = 1_024;

/// The address at which the data area begins.
pub const AREA_START: u32 = 65_536;

/// The longest data area.
pub const AREA_LIMIT: u32 = 1_048_576;

/// The address at which the stack begins: its bottom, under which it may not grow.
pub const STACK_START: u32 = 2_139_095_040;

/// How long the stack is.
pub const STACK_SIZE: u32 = 8_388_608;

/// The address behind the stack: its top, from which it grows down.
pub const STACK_TOP: u32 = 2_147_483_648;

/// How many frames may be live.
pub const FRAME_LIMIT: u32 = 4_096;

const _: () = prove!(STACK_START + STACK_SIZE == STACK_TOP);
