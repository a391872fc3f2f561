//! Callers of frames, at each instruction's boundary of twenty-three functions.
//!
//! The first six have the form of Wine's published tests (dlls/ntdll/tests/exception.c,
//! "test_virtual_unwind"); the others are of our own making. The answers are those of Wine 8.0: its
//! `RtlVirtualUnwind` was called for each row on these bytes and a stack of such words, for
//! handlers of searching and of unwinding alike. Where our answer differs by our own choice, the
//! row's note has Wine's, and the table says what was chosen. Wine gives a handler or none: that a
//! row without one is in a body is ours to say.

use crate::caller_rows::all_unwind;

/// The functions of the published tests. Where our answers differ: in an epilogue the establisher
/// frame is RSP as it is, and Wine's is the frame register's; an entry without codes has epilogues
/// too, which Wine looks for only where there are codes.
const PUBLISHED: &str = r"
# a frame register, saves and a large allocation
info 09 1C 08 35 1C 64 25 00 15 34 24 00 0E 03 09 01 22 00 02 50 00 02 00 00
with rbp=40
FF F5                | push rbp           | - 0 8 0            |
48 81 EC 10 01 00 00 | sub rsp,0x110      | - 8 10 0           | rbp=0
48 8D 6C 24 30       | lea rbp,[rsp+0x30] | - 118 120 0        | rbp=110
48 89 9D F0 00 00 00 | mov [rbp+0xF0],rbx | - 128 130 10       | rbp=120
48 89 B5 F8 00 00 00 | mov [rbp+0xF8],rsi | - 128 130 10       | rbx=130 rbp=120
90                   | nop                | handler 128 130 10 | rbx=130 rbp=120 rsi=138
48 8B 9D F0 00 00 00 | mov rbx,[rbp+0xF0] | handler 128 130 10 | rbx=130 rbp=120 rsi=138
48 8B B5 F8 00 00 00 | mov rsi,[rbp+0xF8] | handler 128 130 10 | rbx=130 rbp=120 rsi=138
48 8D A5 E0 00 00 00 | lea rsp,[rbp+0xE0] | - 128 130 0        | rbp=120                 | Wine's frame: 10
5D                   | pop rbp            | - 8 10 0           | rbp=0                   | Wine's frame: 10
C3                   | ret                | - 0 8 0            |                         | Wine's frame: 10
# five pushes and a small allocation
info 09 0A 06 00 0A 52 06 C0 04 70 03 60 02 50 01 30 00 02 00 00
with rbp=50
53          | push rbx     | - 0 8 0         |
55          | push rbp     | - 8 10 0        | rbx=0
56          | push rsi     | - 10 18 0       | rbx=8 rbp=0
57          | push rdi     | - 18 20 0       | rbx=10 rbp=8 rsi=0
41 54       | push r12     | - 20 28 0       | rbx=18 rbp=10 rsi=8 rdi=0
48 83 EC 30 | sub rsp,0x30 | - 28 30 0       | rbx=20 rbp=18 rsi=10 rdi=8 r12=0
90          | nop          | handler 58 60 0 | rbx=50 rbp=48 rsi=40 rdi=38 r12=30
90          | nop          | handler 58 60 0 | rbx=50 rbp=48 rsi=40 rdi=38 r12=30
48 83 C4 30 | add rsp,0x30 | - 58 60 0       | rbx=50 rbp=48 rsi=40 rdi=38 r12=30
41 5C       | pop r12      | - 28 30 0       | rbx=20 rbp=18 rsi=10 rdi=8 r12=0
5F          | pop rdi      | - 20 28 0       | rbx=18 rbp=10 rsi=8 rdi=0
5E          | pop rsi      | - 18 20 0       | rbx=10 rbp=8 rsi=0
5D          | pop rbp      | - 10 18 0       | rbx=8 rbp=0
5B          | pop rbx      | - 8 10 0        | rbx=0
C3          | ret          | - 0 8 0         |
# a machine frame without an error code, and a push
info 09 00 02 00 01 50 00 0A 00 02 00 00
with rbp=50
55 | push rbp | handler 8 20 0 | rbp=0
90 | nop      | handler 8 20 0 | rbp=0
90 | nop      | handler 8 20 0 | rbp=0
90 | nop      | handler 8 20 0 | rbp=0
90 | nop      | handler 8 20 0 | rbp=0
# a machine frame with an error code, and a push
info 09 00 02 00 01 50 00 1A 00 02 00 00
with rbp=50
55 | push rbp | handler 10 28 0 | rbp=0
90 | nop      | handler 10 28 0 | rbp=0
90 | nop      | handler 10 28 0 | rbp=0
90 | nop      | handler 10 28 0 | rbp=0
90 | nop      | handler 10 28 0 | rbp=0
# a push, and an allocation by a push
info 09 02 02 00 02 02 01 50 00 02 00 00
with rbp=50
55          | push rbp    | - 0 8 0         |
50          | push rax    | - 8 10 0        | rbp=0
90          | nop         | handler 10 18 0 | rbp=8
90          | nop         | handler 10 18 0 | rbp=8
48 83 C4 08 | add rsp,0x8 | - 10 18 0       | rbp=8
5D          | pop rbp     | - 8 10 0        | rbp=0
C3          | ret         | - 0 8 0         |
# no codes, and a handler
info 09 00 00 00 00 02 00 00
with rbp=50
55 | push rbp | handler 0 8 0 |
5D | pop rbp  | - 8 10 0      | rbp=0 | Wine: handler 0 8 0
C3 | ret      | - 0 8 0       |       | Wine: handler 0 8 0
";

/// Allocations, and saved registers.
const ALLOCATIONS: &str = r"
# an allocation in three slots, saves near and far, vectors near and far
info 11 2F 10 00 2F 79 F0 FF 07 00 27 68 03 00 22 74 05 00 1D E5 18 00 08 00 15 35 10 00 08 00 0D 11
info 08 00 08 00 00 02 00 00
with rbp=50
B8 08 00 08 00          | mov eax,0x80008           | - 0 8 0               |
E8 F6 0F 00 00          | call                      | - 0 8 0               |
48 29 C4                | sub rsp,rax               | - 0 8 0               |
48 89 9C 24 10 00 08 00 | mov [rsp+0x80010],rbx     | - 80008 80010 0       |
4C 89 B4 24 18 00 08 00 | mov [rsp+0x80018],r14     | - 80008 80010 0       | rbx=80010
48 89 7C 24 28          | mov [rsp+0x28],rdi        | - 80008 80010 0       | rbx=80010 r14=80018
0F 29 74 24 30          | movaps [rsp+0x30],xmm6    | - 80008 80010 0       | rbx=80010 rdi=28 r14=80018
0F 29 BC 24 F0 FF 07 00 | movaps [rsp+0x7FFF0],xmm7 | - 80008 80010 0       | rbx=80010 rdi=28 r14=80018
90                      | nop                       | handler 80008 80010 0 | rbx=80010 rdi=28 r14=80018
48 8B 7C 24 28          | mov rdi,[rsp+0x28]        | handler 80008 80010 0 | rbx=80010 rdi=28 r14=80018
48 81 C4 08 00 08 00    | add rsp,0x80008           | - 80008 80010 0       |
C3                      | ret                       | - 0 8 0               |
# an argument's home is a save, as Microsoft's compiler writes it
info 19 0A 04 00 0A 34 06 00 0A 32 06 70 00 02 00 00
with rbp=50
48 89 5C 24 08 | mov [rsp+0x8],rbx  | - 0 8 0         |
57             | push rdi           | - 0 8 0         |
48 83 EC 20    | sub rsp,0x20       | - 8 10 0        | rdi=0
90             | nop                | handler 28 30 0 | rbx=30 rdi=20
48 8B 5C 24 30 | mov rbx,[rsp+0x30] | handler 28 30 0 | rbx=30 rdi=20
48 83 C4 20    | add rsp,0x20       | - 28 30 0       | rdi=20
5F             | pop rdi            | - 8 10 0        | rdi=0
C3             | ret                | - 0 8 0         |
# the largest allocation in one slot
info 09 08 02 00 08 F2 01 30 00 02 00 00
with rbp=50
53                   | push rbx     | - 0 8 0         |
48 81 EC 80 00 00 00 | sub rsp,0x80 | - 8 10 0        | rbx=0
90                   | nop          | handler 88 90 0 | rbx=80
48 81 C4 80 00 00 00 | add rsp,0x80 | - 88 90 0       | rbx=80
5B                   | pop rbx      | - 8 10 0        | rbx=0
C3                   | ret          | - 0 8 0         |
# a code that pushes a volatile register, and no handler
info 01 02 02 00 02 00 01 30
with rbp=50
53 | push rbx | - 0 8 0      |
50 | push rax | - 8 10 0     | rbx=0
90 | nop      | body 10 18 0 | rbx=8
58 | pop rax  | - 10 18 0    | rbx=8
5B | pop rbx  | - 8 10 0     | rbx=0
C3 | ret      | - 0 8 0      |
";

/// Functions with a frame register. In an epilogue the establisher frame is RSP as it is; Wine's is
/// the frame register's.
const FRAME_REGISTERS: &str = r"
# a frame register of the upper eight, and lea by one byte
info 09 11 06 2D 11 F4 09 00 0D 03 08 B2 04 C0 02 D0 00 02 00 00
with r13=70
41 55          | push r13           | - 0 8 0          |
41 54          | push r12           | - 8 10 0         | r13=0
48 83 EC 60    | sub rsp,0x60       | - 10 18 0        | r12=0 r13=8
4C 8D 6C 24 20 | lea r13,[rsp+0x20] | - 70 78 0        | r12=60 r13=68
4D 89 7D 28    | mov [r13+0x28],r15 | - C0 C8 50       | r12=B0 r13=B8
90             | nop                | handler C0 C8 50 | r12=B0 r13=B8 r15=98
4D 8B 7D 28    | mov r15,[r13+0x28] | handler C0 C8 50 | r12=B0 r13=B8 r15=98
49 8D 65 40    | lea rsp,[r13+0x40] | - C0 C8 0        | r12=B0 r13=B8        | Wine's frame: 50
41 5C          | pop r12            | - 10 18 0        | r12=0 r13=8          | Wine's frame: 50
41 5D          | pop r13            | - 8 10 0         | r13=0                | Wine's frame: 50
C3             | ret                | - 0 8 0          |                      | Wine's frame: 50
# a frame register that is set before the allocation, as GCC writes it
info 09 08 03 05 08 52 04 03 01 50 00 00 00 02 00 00
with rbp=30
55          | push rbp     | - 0 8 0          |
48 89 E5    | mov rbp,rsp  | - 8 10 0         | rbp=0
48 83 EC 30 | sub rsp,0x30 | - 38 40 30       |
90          | nop          | handler 38 40 30 |
48 83 C4 30 | add rsp,0x30 | - 38 40 0        |       | Wine's frame: 30
5D          | pop rbp      | - 8 10 0         | rbp=0 | Wine's frame: 30
C3          | ret          | - 0 8 0          |       | Wine's frame: 30
# a vector saved by its frame register, and no code
info 09 0F 05 05 0F 68 02 00 0A 03 05 72 01 50 00 00 00 02 00 00
with rbp=10
55             | push rbp               | - 0 8 0          |
48 83 EC 40    | sub rsp,0x40           | - 8 10 0         | rbp=0
48 8D 6C 24 00 | lea rbp,[rsp+0]        | - 48 50 0        | rbp=40
0F 29 74 24 20 | movaps [rsp+0x20],xmm6 | - 58 60 10       | rbp=50
90             | nop                    | handler 58 60 10 | rbp=50
48 8D 65 40    | lea rsp,[rbp+0x40]     | - 58 60 0        | rbp=50 | Wine's frame: 10
5D             | pop rbp                | - 8 10 0         | rbp=0  | Wine's frame: 10
C3             | ret                    | - 0 8 0          |        | Wine's frame: 10
";

/// What is an epilogue and what is none. Here an epilogue ends in a plain `ret`, or in a jump
/// through memory whose ModRM mod is 00, as the x64 ABI has it. Wine takes no jump through memory
/// for an end, and answers as in the body; and it takes a `ret` with a prefix or an operand for an
/// end, and a jump to a `ret` of the same function, where our answer is that of the body. A REX
/// prefix is one too: the machine runs such a `ret`, and it ends no epilogue.
const ENDS: &str = r"
# a frame register, lea by one byte, and a jump through memory
info 09 0A 03 15 0A 03 05 32 01 50 00 00 00 02 00 00
with rbp=30
55                | push rbp           | - 0 8 0          |
48 83 EC 20       | sub rsp,0x20       | - 8 10 0         | rbp=0
48 8D 6C 24 10    | lea rbp,[rsp+0x10] | - 28 30 0        | rbp=20
90                | nop                | handler 48 50 20 | rbp=40
48 8D 65 10       | lea rsp,[rbp+0x10] | - 48 50 0        | rbp=40 | Wine: handler 48 50 20, rbp=40
5D                | pop rbp            | - 8 10 0         | rbp=0  | Wine: handler 48 50 20, rbp=40
FF 25 00 10 00 00 | jmp [rip+0x1000]   | - 0 8 0          |        | Wine: handler 48 50 20, rbp=40
# add and a jump through memory with a prefix
info 09 05 02 00 05 42 01 60 00 02 00 00
with rbp=50
56                   | push rsi         | - 0 8 0         |
48 83 EC 28          | sub rsp,0x28     | - 8 10 0        | rsi=0
90                   | nop              | handler 30 38 0 | rsi=28
48 83 C4 28          | add rsp,0x28     | - 30 38 0       | rsi=28 | Wine: handler 30 38 0, rsi=28
5E                   | pop rsi          | - 8 10 0        | rsi=0  | Wine: handler 30 38 0, rsi=28
48 FF 25 00 10 00 00 | jmp [rip+0x1000] | - 0 8 0         |        | Wine: handler 30 38 0, rsi=28
# a jump through memory by a register
info 09 05 02 00 05 42 01 60 00 02 00 00
with rbp=50
56          | push rsi     | - 0 8 0         |
48 83 EC 28 | sub rsp,0x28 | - 8 10 0        | rsi=0
90          | nop          | handler 30 38 0 | rsi=28
48 83 C4 28 | add rsp,0x28 | - 30 38 0       | rsi=28 | Wine: handler 30 38 0, rsi=28
5E          | pop rsi      | - 8 10 0        | rsi=0  | Wine: handler 30 38 0, rsi=28
FF 20       | jmp [rax]    | - 0 8 0         |        | Wine: handler 30 38 0, rsi=28
# a jump through memory with a displacement
info 09 05 02 00 05 42 01 60 00 02 00 00
with rbp=50
56          | push rsi     | - 0 8 0         |
48 83 EC 28 | sub rsp,0x28 | - 8 10 0        | rsi=0
90          | nop          | handler 30 38 0 | rsi=28
48 83 C4 28 | add rsp,0x28 | handler 30 38 0 | rsi=28
5E          | pop rsi      | handler 30 38 0 | rsi=28
FF 60 08    | jmp [rax+8]  | handler 30 38 0 | rsi=28
# what is no epilogue
info 09 05 02 00 05 42 01 60 00 02 00 00
with rbp=50
56             | push rsi           | - 0 8 0         |
48 83 EC 28    | sub rsp,0x28       | - 8 10 0        | rsi=0
90             | nop                | handler 30 38 0 | rsi=28
48 83 C4 28    | add rsp,0x28       | handler 30 38 0 | rsi=28
31 C0          | xor eax,eax        | handler 30 38 0 | rsi=28
5E             | pop rsi            | - 8 10 0        | rsi=0
C3             | ret                | - 0 8 0         |
48 8D 64 24 28 | lea rsp,[rsp+0x28] | handler 30 38 0 | rsi=28
5E             | pop rsi            | - 8 10 0        | rsi=0
C3             | ret                | - 0 8 0         |
5E             | pop rsi            | handler 30 38 0 | rsi=28
48 83 C4 28    | add rsp,0x28       | - 28 30 0       |
C3             | ret                | - 0 8 0         |
48 83 EC D8    | sub rsp,-0x28      | handler 30 38 0 | rsi=28
5E             | pop rsi            | - 8 10 0        | rsi=0
C3             | ret                | - 0 8 0         |
FF D0          | call rax           | handler 30 38 0 | rsi=28
5E             | pop rsi            | handler 30 38 0 | rsi=28
FF E0          | jmp rax            | handler 30 38 0 | rsi=28
# other ends
info 09 05 02 00 05 42 01 60 00 02 00 00
with rbp=50
56             | push rsi           | - 0 8 0         |
48 83 EC 28    | sub rsp,0x28       | - 8 10 0        | rsi=0
90             | nop                | handler 30 38 0 | rsi=28
5E             | pop rsi            | handler 30 38 0 | rsi=28 | Wine: - 8 10 0, rsi=0
F3 C3          | rep ret            | handler 30 38 0 | rsi=28 | Wine: - 0 8 0
5E             | pop rsi            | handler 30 38 0 | rsi=28 | Wine: - 8 18 0, rsi=0
C2 08 00       | ret 8              | handler 30 38 0 | rsi=28 | Wine: - 0 10 0
48 83 C4 28    | add rsp,0x28       | handler 30 38 0 | rsi=28 | Wine: - 30 38 0, rsi=28
5E             | pop rsi            | handler 30 38 0 | rsi=28 | Wine: - 8 10 0, rsi=0
48 C3          | ret with REX.W     | handler 30 38 0 | rsi=28 | Wine: - 0 8 0
5E             | pop rsi            | handler 30 38 0 | rsi=28
E9 00 10 00 00 | jmp 0x1000 further | handler 30 38 0 | rsi=28
5E             | pop rsi            | handler 30 38 0 | rsi=28
EB 7F          | jmp                | handler 30 38 0 | rsi=28
5E             | pop rsi            | handler 30 38 0 | rsi=28 | Wine: - 8 10 0, rsi=0
EB 00          | jmp to the next    | handler 30 38 0 | rsi=28 | Wine: - 0 8 0
C3             | ret                | - 0 8 0         |
";

/// Chained fragments. Here no handler is looked for in one, and in its own prologue the establisher
/// frame is RSP as it is. Wine asks the parent's handler, in that prologue too, and takes the frame
/// register's frame there, which the parent has set.
const CHAINED: &str = r"
# a fragment chained to its function
info 21 05 02 00 05 64 04 00 00 22 00 00 40 22 00 00 20 30 00 00
info 09 06 03 00 06 42 02 30 01 50 00 00 00 02 00 00
with rbp=50
48 89 74 24 20 | mov [rsp+0x20],rsi | - 38 40 0    | rbx=28 rbp=30        | Wine: handler 38 40 0, rbx=28 rbp=30
90             | nop                | body 38 40 0 | rbx=28 rbp=30 rsi=20 | Wine: handler 38 40 0, rbx=28 rbp=30 rsi=20
48 8B 74 24 20 | mov rsi,[rsp+0x20] | body 38 40 0 | rbx=28 rbp=30 rsi=20 | Wine: handler 38 40 0, rbx=28 rbp=30 rsi=20
48 83 C4 28    | add rsp,0x28       | - 38 40 0    | rbx=28 rbp=30
5B             | pop rbx            | - 10 18 0    | rbx=0 rbp=8
5D             | pop rbp            | - 8 10 0     | rbp=0
C3             | ret                | - 0 8 0      |
# a fragment without codes, chained to another one
info 21 00 00 00 40 21 00 00 80 21 00 00 20 30 00 00
info 21 05 02 00 05 64 04 00 00 22 00 00 40 22 00 00 40 30 00 00
info 09 06 03 00 06 42 02 30 01 50 00 00 00 02 00 00
with rbp=50
90             | nop                | body 38 40 0 | rbx=28 rbp=30 rsi=20 | Wine: handler 38 40 0, rbx=28 rbp=30 rsi=20
48 8B 74 24 20 | mov rsi,[rsp+0x20] | body 38 40 0 | rbx=28 rbp=30 rsi=20 | Wine: handler 38 40 0, rbx=28 rbp=30 rsi=20
48 83 C4 28    | add rsp,0x28       | - 38 40 0    | rbx=28 rbp=30
5B             | pop rbx            | - 10 18 0    | rbx=0 rbp=8
5D             | pop rbp            | - 8 10 0     | rbp=0
C3             | ret                | - 0 8 0      |
# a fragment chained to a function with a frame register
info 21 04 02 25 04 74 06 00 00 22 00 00 40 22 00 00 20 30 00 00
info 09 0A 03 25 0A 03 05 72 01 50 00 00 00 02 00 00
with rbp=40
48 89 7D 10 | mov [rbp+0x10],rdi | - 68 70 0     | rbp=60        | Wine: handler 68 70 20, rbp=60
90          | nop                | body 68 70 20 | rbp=60 rdi=50 | Wine: handler 68 70 20, rbp=60 rdi=50
48 8B 7D 10 | mov rdi,[rbp+0x10] | body 68 70 20 | rbp=60 rdi=50 | Wine: handler 68 70 20, rbp=60 rdi=50
48 8D 65 20 | lea rsp,[rbp+0x20] | - 68 70 0     | rbp=60        | Wine's frame: 20
5D          | pop rbp            | - 8 10 0      | rbp=0         | Wine's frame: 20
C3          | ret                | - 0 8 0       |               | Wine's frame: 20
# a fragment chained to a machine frame
info 21 03 02 00 03 12 01 30 00 22 00 00 40 22 00 00 20 30 00 00
info 01 00 01 00 00 1A 00 00
with rbp=50
53 | push rbx | - 8 20 0     |
50 | push rax | - 10 28 0    | rbx=0
50 | push rax | - 10 28 0    | rbx=0
90 | nop      | body 20 38 0 | rbx=10
";

#[test]
fn boundaries_have_callers(rt: HostRuntime) {
    all_unwind(
        &rt,
        rt.alloc(),
        &[PUBLISHED, ALLOCATIONS, FRAME_REGISTERS, ENDS, CHAINED],
    );
}
