use super::*;

/// Jumps from 40000000h, which is the next instruction's address, with ZF set or not: `CODE | ZF |
/// RIP`. RCX is 1234h; the last one reads its target at 40001000h, which is 0 there.
const JUMPS: &str = r"
E9 10 0 0 0      | - | 40000010
E9 F0 FF FF FF   | - | 3FFFFFF0
EB FE            | - | 3FFFFFFE
74 10            | Z | 40000010
74 10            | - | 40000000
0F 85 80 0 0 0   | - | 40000080
0F 85 80 0 0 0   | Z | 40000000
FF E1            | - | 1234
FF 22            | - | 0
";

/// The states before and after a row's jump.
fn jump_of(rt: &impl Abort, row: &str) -> (Cpu, Cpu) {
    let mut before = cpu();
    before.flags.zero = column(row, 1) == "Z";
    before.registers[1] = 0x1234;
    before.registers[2] = 0x4000_1000;
    let mut after = before;
    after.rip = number(rt, column(row, 2));
    (before, after)
}

#[test]
fn jumps(rt: HostRuntime) {
    let mut space = space(&rt, rt.alloc());
    for row in JUMPS.lines().skip(1) {
        let (before, after) = jump_of(&rt, row);
        has_effect(&rt, &mut space, row, before, Ok(after));
    }
}

/// The only word of the stack that these instructions touch.
const STACKED: u64 = 0x7000_0FF8;

/// What is pushed and popped: `CODE | INSTRUCTION | RIP RSP STACKED | RIP RSP STACKED`, before and
/// after, with the number at 70000FF8h. PUSH RSP stores the old RSP, and POP RSP leaves what was
/// popped.
const PUSHES: &str = r"
54         | push rsp       | 40000000 70001000 0    | 40000000 70000FF8 70001000
5C         | pop rsp        | 40000000 70000FF8 1234 | 40000000 1234 1234
E8 0 1 0 0 | call .+5+0x100 | 40000000 70001000 0    | 40000100 70000FF8 40000000
";

/// A state by its RIP and RSP.
fn stack_of(rt: &impl Abort, words: &str) -> Cpu {
    let mut state = cpu();
    state.rip = number_at(rt, words, 0);
    state.registers[4] = number_at(rt, words, 1);
    state
}

/// Compares what a row's instruction does to the stack.
fn pushes<S: AddressSpace>(rt: &impl Abort, space: &mut S, row: &str) {
    let words = column(row, 2);
    let answer = column(row, 3);
    let stored = space.store(STACKED, Width::W64, number_at(rt, words, 2));
    same(rt, stored, Ok(()), row);
    has_effect(
        rt,
        space,
        row,
        stack_of(rt, words),
        Ok(stack_of(rt, answer)),
    );
    let found = space.load(STACKED, Width::W64);
    same(rt, found, Ok(number_at(rt, answer, 2)), row);
}

/// Compares what the function `pop` makes of a number on the stack, and of an empty stack.
fn pops<S: AddressSpace>(rt: &impl Abort, space: &mut S) {
    let empty = cpu();
    let mut below = empty;
    below.registers[4] = STACKED;
    same(
        rt,
        space.store(STACKED, Width::W64, 0x7000_1000),
        Ok(()),
        "a store",
    );
    same(rt, pop(below, space), Ok((0x7000_1000, empty)), "a number");
    let stop = Stop::Fault {
        code: Code(0xC000_0005),
        access: Some((false, 0x7000_1000)),
    };
    same(rt, pop(empty, space), Err(stop), "an empty stack");
}

#[test]
fn pushes_and_pops(rt: HostRuntime) {
    let mut space = space(&rt, rt.alloc());
    for row in PUSHES.lines().skip(1) {
        pushes(&rt, &mut space, row);
    }
    pops(&rt, &mut space);
}

#[test]
fn no_instructions_to_run(rt: HostRuntime) {
    let mut space = space(&rt, rt.alloc());
    has_effect(&rt, &mut space, "CC | int3", cpu(), Err(Stop::Illegal));
    has_effect(&rt, &mut space, "0F 0B | ud2", cpu(), Err(Stop::Illegal));
}

// Microsoft x64 ABI: RBX, RBP, RDI, RSI, RSP and R12 to R15 are nonvolatile; RIP beside them.
#[test]
fn contexts(rt: HostRuntime) {
    let cpu = Cpu {
        registers: [
            100, 101, 102, 103, 104, 105, 106, 107, 108, 109, 110, 111, 112, 113, 114, 115,
        ],
        rip: 77,
        flags: flags(true, false, true, false),
    };
    let want = Context {
        rip: 77,
        kept: [104, 103, 105, 106, 107, 112, 113, 114, 115],
    };
    same(&rt, Context::of(&cpu), want, "a context");
}

/// Addresses of the host's page, and the services there.
const SERVICES: &str = r"
7FF00000 | None
7FF00010 | Some(Put)
7FF00011 | None
7FF00020 | Some(Protect)
7FF00021 | None
7FF00030 | Some(RaiseException)
7FF00031 | None
7FF00040 | Some(CSpecificHandler)
7FF00041 | None
7FF00050 | Some(LocalUnwind)
7FF00051 | None
7FF00060 | Some(FilterReturn)
7FF00061 | None
7FF00070 | Some(FinallyReturn)
7FF00071 | None
7FF00080 | Some(AddVectored)
7FF00081 | None
7FF00090 | Some(RemoveVectored)
7FF00091 | None
7FF000A0 | Some(VectoredReturn)
7FF000A1 | None
7FF000B0 | Some(Walk)
7FF000B1 | None
7FF000C0 | None
";

#[test]
fn services(rt: HostRuntime) {
    for row in SERVICES.lines().skip(1) {
        let address = number(&rt, column(row, 0));
        let service = Service::at(address);
        shows(&rt, rt.alloc(), &service, column(row, 1), row);
        if let Some(service) = service {
            same(&rt, service.address(), address, row);
        }
    }
}

/// A routine that calls the second of two returns, and a number after them.
const ROUTINE: &str = r"
40000000 | 48 B8 88 77 66 55 44 33 22 11 | mov rax, 1122334455667788h
4000000A | B9 03 00 00 80                | mov ecx, 80000003h
4000000F | 66 BA 34 12                   | mov dx, 1234h
40000013 | 48 89 0B                      | mov [rbx], rcx
40000016 | 48 63 33                      | movsxd rsi, dword ptr [rbx]
40000019 | 48 01 C8                      | add rax, rcx
4000001C | 29 C8                         | sub eax, ecx
4000001E | 83 03 FD                      | add dword ptr [rbx], -3
40000021 | 48 0F AF 03                   | imul rax, [rbx]
40000025 | 50                            | push rax
40000026 | 41 5F                         | pop r15
40000028 | 48 8B 0D 05 00 00 00          | mov rcx, [rip + 5]
4000002F | FF D7                         | call rdi
40000031 | C3                            | ret
40000032 | C3                            | ret
40000033 | CC 08 07 06 05 04 03 02 01    | a byte, and the number
";

/// RIP after each step, and a register with its value there.
const STEPS: &str = r"
4000000A rax 1122334455667788
4000000F rcx 80000003
40000013 rdx FFFFFFFFFFFF1234
40000016 rbx 40001000
40000019 rsi FFFFFFFF80000003
4000001C rax 11223344D566778B
4000001E rax 55667788
40000021 rbx 40001000
40000025 rax 2AB33BC400000000
40000026 rsp 70000FF8
40000028 r15 2AB33BC400000000
4000002F rcx 0102030405060708
40000032 rsp 70000FF8
40000031 rsp 70001000
";

/// The register of a name.
fn register_of(rt: &impl Abort, name: &str) -> Reg {
    match name {
        "rax" => Reg::Rax,
        "rcx" => Reg::Rcx,
        "rdx" => Reg::Rdx,
        "rbx" => Reg::Rbx,
        "rsp" => Reg::Rsp,
        "rsi" => Reg::Rsi,
        "r15" => Reg::R15,
        _ => panic!(rt; "no register: {name}"),
    }
}

/// Compares what one step comes to.
fn steps_to<S: AddressSpace>(rt: &impl Abort, cpu: &mut Cpu, space: &mut S, row: &str) {
    same(rt, step(cpu, space), StepOutcome::Next, row);
    same(rt, cpu.rip, number_at(rt, row, 0), row);
    let found = cpu.register(register_of(rt, word(row, 1)));
    same(rt, found, number_at(rt, row, 2), row);
}

/// Compares the numbers of 64 bits at the addresses of a table.
fn all_hold<S: AddressSpace>(rt: &impl Abort, space: &S, table: &str) {
    for row in table.lines().skip(1) {
        let found = space.load(number(rt, column(row, 0)), Width::W64);
        let want = number(rt, column(row, 1));
        same(rt, found, Ok(want), row);
    }
}

/// A refused step leaves the registers as they are.
fn is_refused<S: AddressSpace>(
    rt: &impl Abort,
    space: &mut S,
    before: Cpu,
    want: StepOutcome,
    row: &str,
) {
    let mut after = before;
    same(rt, step(&mut after, space), want, row);
    same(rt, after, before, row);
}

/// What the routine leaves in memory.
const LEFT: &str = r"
40001000 | 80000000
70000FF8 | 40000031
";

/// The steps of the routine, and the state after them.
fn steps_through<S: AddressSpace>(rt: &impl Abort, space: &mut S) -> Cpu {
    let mut cpu = cpu();
    cpu.set_register(Width::W64, Reg::Rbx, 0x4000_1000);
    cpu.set_register(Width::W64, Reg::Rdi, 0x4000_0032);
    for row in STEPS.lines().skip(1) {
        steps_to(rt, &mut cpu, space, row);
    }
    cpu
}

#[test]
fn steps_through_a_routine(rt: HostRuntime) {
    let mut space = with_code(&rt, rt.alloc(), ROUTINE);
    let cpu = steps_through(&rt, &mut space);
    all_hold(&rt, &space, LEFT);
    // 80000003h + FFFFFFFDh carries; the product after it fits.
    same(&rt, cpu.flags, flags(false, false, true, false), "flags");
    same(&rt, cpu.rip, 0x4000_0031, "RIP");
    let want = violation(false, 0x7000_1000);
    is_refused(&rt, &mut space, cpu, want, "the stack is empty");
}

/// Instructions that are refused by what the registers hold. The last ones are a mov whose number
/// isn't executable, and a ret that isn't.
const PIECES: &str = r"
40000000 | 50       | push rax
40000001 | 48 8B 00 | mov rax, [rax]
40000004 | 48 89 00 | mov [rax], rax
40000007 | FF 10    | call [rax]
40000009 | 83 00 01 | add dword ptr [rax], 1
4000000C | 06       | no instruction in 64-bit mode
4000000D | F7 10    | not dword ptr [rax]
4000000F | 39 00    | cmp [rax], eax
40000011 | C1 20 00 | shl dword ptr [rax], 0
40000014 | 0F 94 00 | sete byte ptr [rax]
40000017 | F7 30    | div dword ptr [rax]
40000019 | CC       | int3
4000001A | 0F 0B    | ud2
4000001C | 41 CC    | int3
4000001E | FF 20    | jmp [rax]
40000FFF | B8       | mov eax, number
40001000 | C3       | ret
";

/// Steps that are refused: `RIP RAX RSP | WHAT WHERE | NOTE`, with the address that isn't read or
/// written, or of the host's service, or RIP; for a fault with its code.
const REFUSED: &str = r"
40000000 1        70000000 | guard 6FFFFFF8
40000000 1        70001008 | write 70001000
40000000 1        0        | write FFFFFFFFFFFFFFF8
40000001 10       70001000 | read 10
40000001 6FFF0000 70001000 | guard 6FFF0000
40000004 40000000 70001000 | write 40000000
40000004 40001FFC 70001000 | write 40002000
40000007 40001FFC 70001000 | read 40002000
40000007 40001000 40000008 | write 40000000
40000009 40000000 70001000 | write 40000000         | read and written: refused as a write
4000000C 1        70001000 | illegal 4000000C
4000000D 40000000 70001000 | write 40000000
4000000F 40001FFD 70001000 | read 40002000
40000011 40000000 70001000 | write 40000000
40000014 40000000 70001000 | write 40000000
40000017 40001800 70001000 | fault C0000094         | the number there is 0
40000019 1        70001000 | illegal 40000019
4000001A 1        70001000 | illegal 4000001A
4000001C 1        70001000 | illegal 4000001C
4000001E 40001FF9 70001000 | read 40002000
40000FFF 1        70001000 | illegal 40000FFF
40001000 1        70000000 | illegal 40001000
0        1        70000000 | illegal 0
7FF00010 1        70001000 | host 7FF00010
7FF00070 1        70001000 | host 7FF00070
7FF000A0 1        70001000 | host 7FF000A0
7FF00040 1        70001000 | illegal 7FF00040       | the language handler isn't run as code
7FF00011 1        70001000 | illegal 7FF00011       | between the services there is none
";

/// The state before a refused step.
fn refused_at(rt: &impl Abort, words: &str) -> Cpu {
    let mut before = cpu();
    before.rip = number_at(rt, words, 0);
    before.set_register(Width::W64, Reg::Rax, number_at(rt, words, 1));
    before.set_register(Width::W64, Reg::Rsp, number_at(rt, words, 2));
    before
}

/// What the step at an address comes to, by a word and the number after it.
fn refusal_of(rt: &impl Abort, rip: u64, what: &str, address: u64) -> StepOutcome {
    match what {
        "read" => violation(false, address),
        "write" => violation(true, address),
        "guard" => StepOutcome::Guard { address },
        "host" => StepOutcome::Host { address },
        "illegal" if address == rip => StepOutcome::Illegal,
        "fault" => StepOutcome::Fault {
            code: code_of(address),
            access: None,
        },
        _ => panic!(rt; "no refusal: {what}"),
    }
}

/// What the data hold after them, as before.
const KEPT: &str = r"
40001000 | C3
40001FF8 | 0
";

#[test]
fn refused_steps_change_nothing(rt: HostRuntime) {
    let mut space = with_code(&rt, rt.alloc(), PIECES);
    for row in REFUSED.lines().skip(1) {
        let before = refused_at(&rt, column(row, 0));
        let words = column(row, 1);
        let address = number_at(&rt, words, 1);
        let want = refusal_of(&rt, before.rip, word(words, 0), address);
        is_refused(&rt, &mut space, before, want, row);
    }
    all_hold(&rt, &space, KEPT);
}
