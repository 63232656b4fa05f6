//! The numbers that several crates share, with their units.

/// The harts of a run, at most; a run has at least one.
pub const HARTS_MOST: u8 = 32;

/// The steps of each hart, at most, where nothing else is asked for.
pub const LIMIT_DEFAULT: u64 = 1_000_000;

/// The steps of each hart, at most, that can be asked for.
pub const LIMIT_MOST: u64 = 4_000_000;

/// The harts of a run times the steps of each, at most.
pub const TOTAL_MOST: u64 = 32_000_000;

/// The bytes of an ELF file, at most, and of the memory of its segments.
pub const FILE_MOST: u64 = 67_108_864;

/// The segments that an ELF file loads, at most.
pub const SEGMENTS_MOST: u32 = 16;

/// The bytes of a script, at most.
pub const SCRIPT_MOST: u64 = 65_536;

/// The bytes of a journal file, at most.
pub const JOURNAL_MOST: u64 = 268_435_456;

/// The bytes of a page, at whose start a block starts.
pub const PAGE_BYTES: u64 = 4096;

/// The words of a block, at most, and the steps between two block starts.
pub const BLOCK_WORDS: u32 = 512;

/// The address past the stack of hart 0, below which the stacks of the harts lie, one below the other.
pub const STACKS_END: u64 = 0x40_0000_0000;

/// The bytes from the base of one hart's stack to that of the next.
pub const STACK_STRIDE: u64 = 0x2_0000;

/// The bytes of a stack.
pub const STACK_BYTES: u64 = 0x1_0000;

/// The address past the last byte of a segment, at most: there the stacks of 32 harts begin.
pub const SEGMENTS_END: u64 = 0x3f_ffc0_0000;

/// The service that appends bytes to the guest's output, in a7.
pub const SERVICE_WRITE: u64 = 64;

/// The service that ends its hart.
pub const SERVICE_EXIT: u64 = 93;

/// The service that ends the group.
pub const SERVICE_EXIT_GROUP: u64 = 94;

/// The service that gives a parked hart its start.
pub const SERVICE_START: u64 = 4096;

/// The bytes that one call of `write` appends, at most.
pub const WRITE_MOST: u64 = 4096;

/// The bytes of the guest's output, at most.
pub const OUTPUT_MOST: u64 = 16_777_216;

/// A file that isn't open: `write` to another file than 1 and 2 answers its negative.
pub const EBADF: u64 = 9;

/// Bytes that may not be read.
pub const EFAULT: u64 = 14;

/// A hart that isn't parked.
pub const EBUSY: u64 = 16;

/// A hart that isn't one of the run's, or a start that isn't a multiple of 4.
pub const EINVAL: u64 = 22;

/// No room left in the output.
pub const ENOSPC: u64 = 28;

/// No such service.
pub const ENOSYS: u64 = 38;

/// The plug-ins that are installed in a run, at most.
pub const PLUGINS_MOST: u8 = 8;

/// The subscriptions of a set, at most.
pub const SUBS_MOST: u32 = 16;

/// The subscriptions of a set that call a box, at most.
pub const CALLING_MOST: u32 = 2;

/// The scoreboard entries of a set, at most.
pub const ENTRIES_MOST: u8 = 64;

/// The boxes of a rack.
pub const RACK_BOXES: u32 = 128;

/// The party of an order that nobody gave: a start order, and a script line before all steps.
pub const NO_PARTY: u8 = 255;

/// The bytes of a piece that is put to a sink, at most.
pub const PIECE_BYTES: usize = 4096;

/// The bit of Init events in a filter's kinds.
pub const KIND_INIT: u8 = 1;

/// The bit of Block events.
pub const KIND_BLOCK: u8 = 2;

/// The bit of Insn events.
pub const KIND_INSN: u8 = 4;

/// The bit of Mem events.
pub const KIND_MEM: u8 = 8;

/// The bit of Sys events.
pub const KIND_SYS: u8 = 16;

/// The bit of SysRet events.
pub const KIND_SYSRET: u8 = 32;

/// The bit of Exit events.
pub const KIND_EXIT: u8 = 64;

/// The bits of all kinds of event.
pub const KINDS_ALL: u8 = 127;

/// The bits of all classes of instruction words.
pub const CLASSES_ALL: u16 = 511;

/// The direction of a load or LR, in an event and in a filter's directions.
pub const READS: u8 = 1;

/// The direction of a store or SC.
pub const WRITES: u8 = 2;

/// The direction of an AMO; in a filter, loads and stores.
pub const READS_AND_WRITES: u8 = 3;
