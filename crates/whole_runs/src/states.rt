//! What is printed of threads, up to their marks.

/// Thread 1 of the straight line.
pub const STATE: &str = "thread 1 returned instructions 3 passings 2\n\
    rax=41 rcx=0 rdx=0 rbx=0 rbp=0 rsi=0 rdi=1 r8=0 r9=0 r11=0 r12=0 r13=0 r14=0 r15=0 zf=0\n\
    output 41\n";

/// Thread 1 of a text whose exit sled is at an odd place.
pub const ODD_EXIT_STATE: &str = "thread 1 returned instructions 2 passings 2\n\
    rax=0 rcx=0 rdx=0 rbx=0 rbp=0 rsi=0 rdi=1 r8=0 r9=0 r11=0 r12=0 r13=0 r14=0 r15=0 zf=0\n\
    output 00\n";

/// Thread 1 of a call.
pub const CALL_STATE: &str = "thread 1 returned instructions 3 passings 4\n\
    rax=0 rcx=0 rdx=0 rbx=0 rbp=0 rsi=0 rdi=1 r8=0 r9=0 r11=0 r12=0 r13=0 r14=0 r15=0 zf=0\n\
    output -\n";

/// Thread 2 of a call.
pub const SECOND_CALL_STATE: &str = "thread 2 returned instructions 3 passings 4\n\
    rax=0 rcx=0 rdx=0 rbx=0 rbp=0 rsi=0 rdi=2 r8=0 r9=0 r11=0 r12=0 r13=0 r14=0 r15=0 zf=0\n\
    output -\n";

/// Thread 1 of a tail jump.
pub const TAIL_JUMP_STATE: &str = "thread 1 returned instructions 2 passings 4\n\
    rax=0 rcx=0 rdx=0 rbx=0 rbp=0 rsi=0 rdi=1 r8=0 r9=0 r11=0 r12=0 r13=0 r14=0 r15=0 zf=0\n\
    output -\n";

/// The rest of what is printed of a thread of the straight line after its number in hexadecimal digits, if it passed
/// patched sleds.
pub const PATCHED: &str = " r8=0 r9=0 r11=0 r12=0 r13=0 r14=0 r15=0 zf=0\noutput 41\nmarks +2\n";

/// How each thread of the straight line ends, between its number and its number in hexadecimal digits.
pub const RETURNED: &str =
    " returned instructions 3 passings 2\nrax=41 rcx=0 rdx=0 rbx=0 rbp=0 rsi=0 rdi=";

/// Thread 1 of a text that calls a function twice, each time with another argument.
pub const TWO_CALLS_STATE: &str = "thread 1 returned instructions 9 passings 4\n\
    rax=0 rcx=0 rdx=0 rbx=0 rbp=0 rsi=0 rdi=9 r8=0 r9=0 r11=0 r12=0 r13=0 r14=0 r15=0 zf=0\n\
    output -\n";

/// Thread 1 of a call with the largest argument.
pub const LARGEST_STATE: &str = "thread 1 returned instructions 6 passings 2\n\
    rax=0 rcx=1 rdx=0 rbx=0 rbp=0 rsi=0 rdi=ffffffffffffffff r8=0 r9=0 r11=0 r12=0 r13=0 r14=0 r15=0 zf=0\n\
    output -\n";

/// The registers of thread 1 at its start.
pub const STARTED: &str =
    "rax=0 rcx=0 rdx=0 rbx=0 rbp=0 rsi=0 rdi=1 r8=0 r9=0 r11=0 r12=0 r13=0 r14=0 r15=0 zf=0\n";

/// Its registers after `mov eax, 0x41`.
pub const MOVED: &str =
    "rax=41 rcx=0 rdx=0 rbx=0 rbp=0 rsi=0 rdi=1 r8=0 r9=0 r11=0 r12=0 r13=0 r14=0 r15=0 zf=0\n";

/// The same as `PATCHED`, if the first sled wasn't patched.
pub const UNPATCHED_ONCE: &str =
    " r8=0 r9=0 r11=0 r12=0 r13=0 r14=0 r15=0 zf=0\noutput 41\nmarks .1 +1\n";

/// The same as `PATCHED`, if no sled was patched.
pub const UNTOUCHED: &str = " r8=0 r9=0 r11=0 r12=0 r13=0 r14=0 r15=0 zf=0\noutput 41\nmarks .2\n";
