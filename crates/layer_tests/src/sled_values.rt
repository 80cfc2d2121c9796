/// Patched, with a call of the entry trampoline and a jump to the exit trampoline.
pub const PATCHED: [u64; 8] = [0xBA41, 1, 0xE8, 0x1F_FFF5, 0xBA41, 1, 0xE9, 0x1F_FFF3];
