//! Frames whose caller isn't found: a word of the stack that is needed can't be read, or the
//! caller's stack pointer wouldn't be above the callee's. The answers are by hand, from the rules
//! that a row's note names. The stack ends at 81000: the last word that can be read is at 80FF8.

use crate::caller_rows::all_unwind;

/// Words that can't be read. The codes are undone from the last to the first, and the return
/// address is popped after them; the first word that is missing is named by its place.
const UNREADABLE: &str = r"
# a leaf at the last word of the stack
with rsp=80FF8
90 | nop | - 80FF8 81000 80FF8 | | the return address is at RSP
# a leaf past the stack's end
with rsp=81000
90 | nop | unreadable 81000 | | the return address
# a leaf below the stack
with rsp=FFFFFFFFFFFFFFF8
90 | nop | unreadable FFFFFFFFFFFFFFF8 | | the return address
# a leaf whose return address is half in the stack
with rsp=80FFC
90 | nop | unreadable 80FFC | | the word, though 81000 is the first byte that can't be read
# a pushed register past the stack's end
info 01 05 02 00 05 42 01 60
with rsp=80FD8
56          | push rsi     | - 80FD8 80FE0 80FD8 |
48 83 EC 28 | sub rsp,0x28 | - 80FE0 80FE8 80FD8 | rsi=80FD8
90          | nop          | unreadable 81000    | | rsi, at 80FD8 + 28
48 83 C4 28 | add rsp,0x28 | unreadable 81000    | | rsi, by the epilogue's pop
5E          | pop rsi      | - 80FE0 80FE8 80FD8 | rsi=80FD8
C3          | ret          | - 80FD8 80FE0 80FD8 |
# a return address past the stack's end
info 01 05 02 00 05 42 01 60
with rsp=80FD0
56          | push rsi     | - 80FD0 80FD8 80FD0 |
48 83 EC 28 | sub rsp,0x28 | - 80FD8 80FE0 80FD0 | rsi=80FD0
90          | nop          | unreadable 81000    | | the return address: rsi is read at 80FF8
48 83 C4 28 | add rsp,0x28 | unreadable 81000    | | the same, by the epilogue
5E          | pop rsi      | - 80FD8 80FE0 80FD0 | rsi=80FD0
C3          | ret          | - 80FD0 80FD8 80FD0 |
# a saved register past the stack's end
info 01 09 03 00 09 74 04 00 04 42 00 00
with rsp=80FE0
48 83 EC 28    | sub rsp,0x28       | - 80FE0 80FE8 80FE0 |
48 89 7C 24 20 | mov [rsp+0x20],rdi | unreadable 81008    | | the return address, at 80FE0 + 28
90             | nop                | unreadable 81000    | | rdi, at 80FE0 + 20
48 83 C4 28    | add rsp,0x28       | unreadable 81008    | | the return address alone
C3             | ret                | - 80FE0 80FE8 80FE0 |
# a volatile register, whose word is needed though it isn't set, past the stack's end
info 01 01 01 00 01 00 00 00
with rsp=81000
50 | push rax | unreadable 81000 | | the return address
90 | nop      | unreadable 81000 | | rax's word; the return address is at 81008
58 | pop rax  | unreadable 81000 | | the same, by the epilogue
# a saved volatile register, whose word is needed too, past the stack's end
info 01 05 02 00 05 04 01 00
with rsp=80FF8
48 89 44 24 08 | mov [rsp+0x8],rax | - 80FF8 81000 80FF8 |
90             | nop               | unreadable 81000    | | rax's word, at 80FF8 + 8
C3             | ret               | - 80FF8 81000 80FF8 |
# a parent's pushed register past the stack's end
info 21 00 00 00 00 22 00 00 40 22 00 00 20 30 00 00
info 01 02 02 00 02 02 01 30
with rsp=80FF8
90 | nop | unreadable 81000 | | the parent's codes: 8 bytes given back, then rbx
# a frame register below the stack
info 01 04 02 05 04 03 01 50
with rsp=40 rbp=FFFFFFFFFFFFFFF8
55          | push rbp        | - 40 48 40                  |
48 89 E5    | mov rbp,rsp     | - 48 50 40                  | rbp=40
90          | nop             | unreadable FFFFFFFFFFFFFFF8 | | rbp; before Backward
48 8D 65 00 | lea rsp,[rbp+0] | unreadable FFFFFFFFFFFFFFF8 | | the same, by the epilogue
5D          | pop rbp         | - 48 50 40                  | rbp=40
C3          | ret             | - 40 48 40                  |
";

/// Machine frames: RIP is the word at RSP, past an error code where there is one, and RSP the third
/// word after it.
const MACHINE_FRAMES: &str = r"
# RIP past the stack's end
info 01 00 01 00 00 0A 00 00
with rsp=81000
90 | nop | unreadable 81000 | | RIP
# RSP past the stack's end
info 01 00 01 00 00 0A 00 00
with rsp=80FE8
90 | nop | unreadable 81000 | | RIP is read at 80FE8, RSP is at 80FE8 + 18
# RIP past the stack's end, after an error code
info 01 00 01 00 00 1A 00 00
with rsp=80FF8
90 | nop | unreadable 81000 | | RIP, at 80FF8 + 8
# RSP past the stack's end, after an error code
info 01 00 01 00 00 1A 00 00
with rsp=80FE0
90 | nop | unreadable 81000 | | RIP is read at 80FE8, RSP is at 80FE8 + 18
# RSP at the last word of the stack
info 01 00 01 00 00 0A 00 00
with rsp=80FE0
90 | nop | body 80FE0 80FF8 80FE0 |
# an RSP that doesn't rise
info 01 00 01 00 00 0A 00 00
words 18=0
90 | nop | backward 0 | | the word at 18 is RSP itself
# an RSP that rises by one
info 01 00 01 00 00 0A 00 00
words 18=1
90 | nop | body 0 1 0 |
# an RSP that falls, after an error code
info 01 00 01 00 00 1A 00 00
words 20=FFFFFFFFFFFFFFFF
90 | nop | backward 0 | | the word at 20 is below RSP
";

/// Callers whose stack pointer isn't above RSP. The pop of the return address raises it by 8.
const BACKWARD: &str = r"
# a frame register two words below RSP
info 01 04 02 05 04 03 01 50
with rsp=40 rbp=30
55          | push rbp        | - 40 48 40  |
48 89 E5    | mov rbp,rsp     | - 48 50 40  | rbp=40
90          | nop             | backward 40 |        | rbp is read at 30, the return address at 38
48 8D 65 00 | lea rsp,[rbp+0] | backward 40 |        | the same, by the epilogue
5D          | pop rbp         | - 48 50 40  | rbp=40
C3          | ret             | - 40 48 40  |
# a frame register one word below RSP
info 01 04 02 05 04 03 01 50
with rsp=40 rbp=38
55          | push rbp        | - 40 48 40    |
48 89 E5    | mov rbp,rsp     | - 48 50 40    | rbp=40
90          | nop             | body 40 48 38 | rbp=38
48 8D 65 00 | lea rsp,[rbp+0] | - 40 48 40    | rbp=38
5D          | pop rbp         | - 48 50 40    | rbp=40
C3          | ret             | - 40 48 40    |
# an epilogue that takes a word
info 01 00 00 00
with rsp=40
48 83 C4 F8 | add rsp,-0x8 | backward 40 | | the return address is at 38
C3          | ret          | - 40 48 40  |
# an epilogue that pops RSP
info 01 00 00 00
with rsp=40
words 40=38
5C | pop rsp | backward 40 | | RSP is the word at 40, and the return address is at 38
C3 | ret     | - 38 48 40  | | the word at 40 is 38
# a pushed RSP
info 01 01 01 00 01 40 00 00
with rsp=40
words 40=30
54 | push rsp | - 30 48 40  | | the word at 40 is 30
90 | nop      | backward 40 | | RSP is that word and 8, and the return address is at 38
# a saved RSP
info 01 05 02 00 05 44 01 00
with rsp=40
words 48=38
48 89 64 24 08 | mov [rsp+0x8],rsp | - 40 48 40  |
90             | nop               | backward 40 | | RSP is the word at 48, the return address at 38
# an allocation past the last address
info 01 03 03 00 03 11 F8 FF FF FF 00 00
with rsp=FFFFFFFF00000048
48 29 C4 | sub rsp,rax | unreadable FFFFFFFF00000048 | | the return address
90       | nop         | backward FFFFFFFF00000048   | | the return address is at 40, modulo 2^64
";

#[test]
fn callers_are_not_found(rt: HostRuntime) {
    all_unwind(&rt, rt.alloc(), &[UNREADABLE, MACHINE_FRAMES, BACKWARD]);
}
