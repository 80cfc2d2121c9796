//! The records of the basic mode of LLVM's runtime, as `XRayRecord` of compiler-rt's `xray_records.h`
//! lays them out. A record of a passing has 32 bytes. Numbers have their lowest byte first.
#![tactic(auto)]

mod fields;

pub use fields::{
    BASIC_TYPE, BASIC_VERSION, RECORD_BYTES, arg_logged, event_in, func_in, kind_byte, kind_of,
    pid_in, tag_in, thread_in, u32_at, u64_at,
};
