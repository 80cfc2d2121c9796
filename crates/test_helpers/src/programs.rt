//! A compiled program, and its sled map. `llvm-xray-14 extract` prints the same sleds. Each function has further symbols,
//! which don't name it.

/// A shared object with six sleds of three functions, whose sections are `xray_instr_map`, `.symtab`, `.strtab` and
/// `.shstrtab`.
pub const PROGRAM: &[u8] =
    b"\x7FELF\x02\x01\x01\0\0\0\0\0\0\0\0\0\x02\0>\0\x01\0\0\0\0\x10\0\0\0\0\0\0\0\0\0\0\0\0\0\0P\x02\0\0\0\
\0\0\0\0\0\0\0@\08\0\0\0@\0\x05\0\x04\0\0\xF0\xFF\xFF\xFF\xFF\xFF\xFF\xF8\xEF\xFF\xFF\xFF\xFF\xFF\xFF\
\0\x01\x02\0\0\0\0\0\0\0\0\0\0\0\0\0\xF4\xEF\xFF\xFF\xFF\xFF\xFF\xFF\xD8\xEF\xFF\xFF\xFF\xFF\xFF\xFF\x01\
\x01\x02\0\0\0\0\0\0\0\0\0\0\0\0\0\xE0\xEF\xFF\xFF\xFF\xFF\xFF\xFF\xD8\xEF\xFF\xFF\xFF\xFF\xFF\xFF\x03\
\0\x02\0\0\0\0\0\0\0\0\0\0\0\0\0\xD0\xEF\xFF\xFF\xFF\xFF\xFF\xFF\xB8\xEF\xFF\xFF\xFF\xFF\xFF\xFF\x02\0\
\x02\0\0\0\0\0\0\0\0\0\0\0\0\0\xC0\xEF\xFF\xFF\xFF\xFF\xFF\xFF\xB8\xEF\xFF\xFF\xFF\xFF\xFF\xFF\x04\0\x02\
\0\0\0\0\0\0\0\0\0\0\0\0\0\xA6\xEF\xFF\xFF\xFF\xFF\xFF\xFF\x98\xEF\xFF\xFF\xFF\xFF\xFF\xFF\x01\0\x02\0\
\0\0\0\0\0\0\0\0\0\0\0\0\0\0\0\0\0\0\0\0\0\0\0\0\0\0\0\0\0\0\0\0\0\0\0\0\x01\0\0\0\x02\0\x01\0\0\x10\0\
\0\0\0\0\0 \0\0\0\0\0\0\0\x12\0\0\0\x12\0\x01\0\0\x10\0\0\0\0\0\0 \0\0\0\0\0\0\0\x17\0\0\0\x22\0\x01\0\
\0\x10\0\0\0\0\0\0 \0\0\0\0\0\0\0!\0\0\0\x12\0\x01\0 \x10\0\0\0\0\0\0 \0\0\0\0\0\0\0&\0\0\0\x12\0\x01\
\0 \x10\0\0\0\0\0\0\0\0\0\0\0\0\0\0:\0\0\0\x12\0\0\0 \x10\0\0\0\0\0\0 \0\0\0\0\0\0\0O\0\0\0\x11\0\x01\
\0 \x10\0\0\0\0\0\0 \0\0\0\0\0\0\0\0local_and_longer\0main\0weak_name\0it's\0sizeless_and_longer\0els\
ewhere_and_longer\0object_and_longer\0\0xray_instr_map\0.symtab\0.strtab\0.shstrtab\0\0\0\0\0\0\0\0\0\
\0\0\0\0\0\0\0\0\0\0\0\0\0\0\0\0\0\0\0\0\0\0\0\0\0\0\0\0\0\0\0\0\0\0\0\0\0\0\0\0\0\0\0\0\0\0\0\0\0\0\0\
\0\0\0\0\0\0\0\0\0\0\x01\0\0\0\x01\0\0\0\x02\0\0\0\0\0\0\0\0 \0\0\0\0\0\0@\0\0\0\0\0\0\0\xC0\0\0\0\0\0\
\0\0\0\0\0\0\0\0\0\0\x01\0\0\0\0\0\0\0\0\0\0\0\0\0\0\0\x10\0\0\0\x02\0\0\0\0\0\0\0\0\0\0\0\0\0\0\0\0\0\
\0\0\0\x01\0\0\0\0\0\0\xC0\0\0\0\0\0\0\0\x03\0\0\0\0\0\0\0\x01\0\0\0\0\0\0\0\x18\0\0\0\0\0\0\0\x18\0\0\
\0\x03\0\0\0\0\0\0\0\0\0\0\0\0\0\0\0\0\0\0\0\xC0\x01\0\0\0\0\0\0a\0\0\0\0\0\0\0\0\0\0\0\0\0\0\0\x01\0\
\0\0\0\0\0\0\0\0\0\0\0\0\0\0 \0\0\0\x03\0\0\0\0\0\0\0\0\0\0\0\0\0\0\0\0\0\0\0!\x02\0\0\0\0\0\0*\0\0\0\
\0\0\0\0\0\0\0\0\0\0\0\0\x01\0\0\0\0\0\0\0\0\0\0\0\0\0\0\0";

/// Its map.
pub const MAP: &[u8] = b"---
- { id: 1, address: 0x1000, function: 0x1000, kind: function-enter, always-instrument: true, function-name: 'main', version: 2 }
- { id: 1, address: 0x1014, function: 0x1000, kind: function-exit, always-instrument: true, function-name: 'main', version: 2 }
- { id: 2, address: 0x1020, function: 0x1020, kind: log-args-enter, always-instrument: false, function-name: 'it''s', version: 2 }
- { id: 2, address: 0x1030, function: 0x1020, kind: tail-exit, always-instrument: false, function-name: 'it''s', version: 2 }
- { id: 3, address: 0x1040, function: 0x1040, kind: custom-event, always-instrument: false, function-name: '', version: 2 }
- { id: 3, address: 0x1046, function: 0x1040, kind: function-exit, always-instrument: false, function-name: '', version: 2 }
...
";

/// What is said of it.
pub const FACTS: &str = "                   6 sleds
                   3 functions
                   1 functions without a name
                   0 sleds without an id left out
";
