//! The layout of records, as LLVM's `xray_fdr_log_records.h` declares it.

/// The length of a function record in bytes (`FunctionRecord`).
pub const FUNCTION_BYTES: usize = 8;

/// The length of a metadata record in bytes, including its first byte (`MetadataRecord`).
pub const METADATA_BYTES: usize = 16;

/// How many values the type bit has. It is the lowest bit of a record's first byte: 0 for a
/// function record, and 1 for a metadata record.
pub(crate) const TYPES: u8 = 2;

/// The type bit of a function record (`RecordType::Function`).
pub(crate) const FUNCTION: u8 = 0;

/// The type bit of a metadata record (`RecordType::Metadata`).
pub(crate) const METADATA: u8 = 1;

/// The place of a metadata record's fields. The byte before them has the type bit, and the kind
/// above it.
pub(crate) const FIELDS: usize = 1;

/// The lowest bit of the kind in the first byte of a metadata record.
pub(crate) const KIND_SHIFT: u32 = 1;

/// The kind of the first record of a buffer, which has the thread's id (`NewBuffer`).
pub(crate) const NEW_BUFFER: u8 = 0;

/// The kind of a record with a CPU and its counter (`NewCPUId`).
pub(crate) const NEW_CPU_ID: u8 = 2;

/// The kind of a record with a counter that no delta reaches (`TSCWrap`).
pub(crate) const TSC_WRAP: u8 = 3;

/// The kind of a record with a wall time (`WalltimeMarker`).
pub(crate) const WALL_TIME: u8 = 4;

/// The kind of a record with an argument of the function record before it (`CallArgument`).
pub(crate) const CALL_ARGUMENT: u8 = 6;

/// The kind of a record that comes before a buffer in a file. It says how many bytes of the buffer
/// are used (`BufferExtents`).
pub(crate) const BUFFER_EXTENTS: u8 = 7;

/// The kind of a record with the process's id (`Pid`).
pub(crate) const PID: u8 = 9;

/// The length of a CPU's number in bytes. The counter follows it.
pub(crate) const CPU_BYTES: usize = 2;

/// The length of a wall time's seconds in bytes. The microseconds follow them.
pub(crate) const SECONDS_BYTES: usize = 8;

/// The lowest bit of the action in the first four bytes of a function record (`RecordKind`).
pub(crate) const ACTION_SHIFT: u32 = 1;

/// How many values the three bits of the action have.
pub(crate) const ACTIONS: u8 = 8;

/// The lowest bit of the function's id in the first four bytes of a function record (`FuncId`).
pub(crate) const ID_SHIFT: u32 = 4;

/// The length in bytes of the type bit, the action and the function's id. The delta follows them
/// (`TSCDelta`).
pub(crate) const ID_BYTES: usize = 4;

/// The action of an entry (`FunctionEnter`).
pub(crate) const ENTER: u8 = 0;

/// The action of an exit (`FunctionExit`).
pub(crate) const EXIT: u8 = 1;

/// The action of a tail exit (`FunctionTailExit`).
pub(crate) const TAIL_EXIT: u8 = 2;

/// The action of an entry whose argument follows in a record of its own (`EnterArg`).
pub(crate) const ENTER_ARG: u8 = 3;

/// The least number that isn't an action.
pub(crate) const NO_ACTION: u8 = 4;
