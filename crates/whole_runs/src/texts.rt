//! Texts and scripts that several tables have.

/// A move, an output and a return. Its image is `IMAGE`.
pub const STRAIGHT_LINE: &[u8] = b"base 0x1000\nfn main always\nmov eax, 65\nout 1\nret\n";

/// An exit sled that needs its alignment byte.
pub const ODD_EXIT: &[u8] = b"base 0x1000\nfn main always\nout 0\nret\n";

/// The same text, with a function that logs its first argument.
pub const ARGUMENT: &[u8] = b"base 0x1000\nfn main args\nout 0\nret\n";

/// A call over an alignment byte.
pub const CALL: &[u8] = b"base 0x1000\nfn main always\ncall f\nret\nfn f always\nret\n";

/// A tail jump to the next function.
pub const TAIL_JUMP: &[u8] = b"base 0x1000\nfn a always\ntailjmp b\nfn b always\nret\n";

/// A recursive function after one without sleds.
pub const FIBONACCI: &[u8] = b"base 0x1000\nentry main\nfn main never\nmov edi, 20\ncall fib\nret\n\
    fn fib always\nmov ecx, 0\nadd rdi, rcx\njnz nz\nret\nnz:\nmov ecx, 1\nsub rdi, rcx\n\
    jnz big\nadd rax, rcx\nret\nbig:\npush rdi\ncall fib\npop rdi\nmov ecx, 1\nsub rdi, rcx\n\
    call fib\nret\n";

/// A function that logs its argument is called with 20 and with 7, and changes the register before it returns.
pub const TWO_CALLS: &[u8] =
    b"base 0x1000\nentry main\nfn main never\nmov edi, 20\ncall f\nmov edi, 7\ncall f\nret\n\
    fn f args\nmov edi, 9\nret\n";

/// The words of a replay, without options.
pub const SIM: &str = "sim i s c t a";

/// Everything is ready before the thread starts: the sleds are patched, a handler is set, and the log is initialized.
pub const TRACED: &[u8] = b"patch\nset_handler\ninit\ngo\n";

/// The sleds are patched while the threads run: id, opcode, offset and head of the entry sled, and then of the exit
/// sled.
pub const LIVE: &[u8] = b"set_handler\ninit\ngo\npatch\n";

/// The thread is held at its third passing until the sleds are patched.
pub const HELD: &[u8] = b"set_handler\ninit\nhold 1 2\ngo\nawait 1 2\npatch\nrelease 1\n";

/// Both handlers are set.
pub const BOTH: &[u8] = b"patch\nset_handler\nset_arg_handler\ninit\ngo";
