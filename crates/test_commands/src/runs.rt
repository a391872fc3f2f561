//! What `exec` answers for code, and by its options.

use crate::inputs::all_answer;

/// The exit status is a signed number of 32 bits; a write of 32 bits clears the upper half; a byte
/// that begins no instruction of the machine; the guard below the stack; the last instruction of a
/// page ends with it, and no page follows; a recursion without end, and a loop.
const CODE: &str = r"
exec | fourteen | 0 14 / exit 7
exec | code B8 FF FF FF FF C3 // mov eax,-1; ret | 0 exit -1
exec | code 48 B9 FF FF FF FF FF FF FF FF B9 FE FF FF FF 48 B8 10 00 F0 7F 00 00 00 00 50 FF 14 24 59 C3 // mov rcx,-1; mov ecx,-2; mov rax,put; push rax; call [rsp]; pop rcx; ret | 0 4294967294 / exit 2146435088
exec | code 48 8B 01 // mov rax,[rcx] | 10 unhandled C0000005
exec | code B8 01 00 00 00 06 // mov eax,1 | 13 stopped Illegal 0000000140001005
exec | code B9 D8 FF 7F 00 48 29 CC 50 // mov ecx,0x7FFFD8; sub rsp,rcx; push rax | 11 stack limit 000000006FFFFFF8
exec | code 4091*00 B8 01 00 00 00 @ optional+16 FB 1F // mov eax,1 | 13 stopped Illegal 0000000140002000
exec | code 48 B8 00 10 00 40 01 00 00 00 FF D0 // mov rax,0x140001000; call rax | 11 stack limit 000000006FFFFFF8
exec | endless | 12 out of turns 10000000
";

#[test]
fn code_runs_to_its_end(rt: HostRuntime) {
    all_answer(&rt, rt.alloc(), CODE);
}

/// Of `mov rax,rcx; ret` the argument is the exit status, after two turns.
const OPTIONS: &str = r"
exec --turns 1 | fourteen | 12 out of turns 1
exec --turns 0 | fourteen | 12 out of turns 0
exec --turns 13 | fourteen | 0 14 / exit 7
exec --turns 9223372036854775807 | fourteen | 0 14 / exit 7
exec --arg 5 | code 48 89 C8 C3 // mov rax,rcx; ret | 0 exit 5
exec --arg 9223372036854775807 | code 48 89 C8 C3 // mov rax,rcx; ret | 0 exit -1
exec --arg 7 --turns 2 --trace | code 48 89 C8 C3 // mov rax,rcx; ret | 0 exit 7
exec --turns 2 --trace --arg 7 | code 48 89 C8 C3 // mov rax,rcx; ret | 0 exit 7
exec --trace --arg 7 --turns 2 | code 48 89 C8 C3 // mov rax,rcx; ret | 0 exit 7
exec --arg 7 --turns 1 | code 48 89 C8 C3 // mov rax,rcx; ret | 12 out of turns 1
exec | code 48 8B 01 // mov rax,[rcx] | 10 unhandled C0000005
exec --trace | code 48 8B 01 // mov rax,[rcx] | 10 raise C0000005 0 read 0000000000000000 / unhandled C0000005
exec --trace --arg 16 | code 48 8B 01 // mov rax,[rcx] | 10 raise C0000005 0 read 0000000000000010 / unhandled C0000005
";

#[test]
fn options_change_a_run(rt: HostRuntime) {
    all_answer(&rt, rt.alloc(), OPTIONS);
}
