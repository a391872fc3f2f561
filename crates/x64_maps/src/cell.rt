//! What a cell of an opcode map says (Intel manual, volume 2, appendix A, "Opcode Map").

/// Whether ModRM follows the opcode, and in which form.
#[derive(Clone, Copy, Debug, PartialEq, Eq)]
pub enum Form {
    /// No ModRM.
    Nothing,
    /// A register or a place in memory.
    Any,
    /// A place in memory alone: mod isn't 11.
    Memory,
    /// A register alone: mod is 11.
    Register,
    /// A register, whatever mod is: MOV to and from control registers.
    AlwaysRegister,
}

/// The immediate at the instruction's end.
#[derive(Clone, Copy, Debug, PartialEq, Eq)]
pub enum Immediate {
    Nothing,
    /// One byte (Ib, Jb).
    Byte,
    /// Two bytes (Iw).
    Word,
    /// Three bytes (Iw and Ib, of ENTER).
    WordAndByte,
    /// Four bytes, or two with 66 (Iz, Jz).
    Half,
    /// Eight bytes with REX.W, else as `Half` (Iv).
    Whole,
    /// An address of eight bytes, or of four with 67 (Ob, Ov).
    Address,
}

/// Whether an operand that is a register is written.
#[derive(Clone, Copy, Debug, PartialEq, Eq)]
pub enum Part {
    Nothing,
    /// As a byte register.
    Byte,
    Whole,
}

/// The vector register that is written.
#[derive(Clone, Copy, Debug, PartialEq, Eq)]
pub enum Vector {
    Nothing,
    /// That of ModRM's reg field.
    Reg,
    /// That of ModRM's r/m, in register form.
    Rm,
    /// That of VEX.vvvv.
    Vvvv,
    /// That of ModRM's reg field and that of VEX.vvvv: VGATHERDPS, whose mask is cleared.
    RegAndVvvv,
    /// Each.
    All,
    /// XMM0.
    Xmm0,
}

/// How the flow goes on.
#[derive(Clone, Copy, Debug, PartialEq, Eq)]
pub enum Ending {
    /// With the next instruction.
    Next,
    /// With the next one, or so far from it as the immediate says.
    Conditional,
    /// So far from the next instruction as the immediate says.
    Jump,
    /// The same, and the next one's address is pushed.
    Call,
    /// At the address on the stack.
    Return,
    /// At the address in ModRM's r/m.
    JumpIndirect,
    /// The same, and the next one's address is pushed.
    CallIndirect,
    /// Not at all: UD2, HLT.
    Stops,
    /// INT: not at all with 29, else with the next instruction.
    Interrupt,
}

/// An instruction's operands, and what it may write.
#[derive(Clone, Copy, Debug, PartialEq, Eq)]
pub struct Cell {
    pub form: Form,
    pub immediate: Immediate,
    /// The general register of ModRM's r/m, in register form.
    pub rm: Part,
    /// The general register of ModRM's reg field.
    pub reg: Part,
    /// The general register of the opcode's low three bits.
    pub low: Part,
    /// Whether the general register of VEX.vvvv is written.
    pub vvvv: bool,
    /// The general registers that are always written, bit r for register r.
    pub fixed: u32,
    /// Whether RCX is written where F2 or F3 repeats the instruction.
    pub counted: bool,
    pub vector: Vector,
    pub ending: Ending,
}

/// The groups of cells by ModRM's reg field, with their numbers in the manual ("Opcode Extensions
/// for One- and Two-byte Opcodes by Group Number").
#[derive(Clone, Copy, Debug, PartialEq, Eq)]
pub enum Group {
    /// 80: ADD to CMP of a byte, by an immediate.
    One8,
    /// 81: the same of a word and more.
    One,
    /// 83: the same, by a byte.
    OneSigned,
    /// 8F: POP.
    OneA,
    /// C0: rotations and shifts of a byte, by an immediate.
    Two8Immediate,
    /// C1: the same of a word and more.
    TwoImmediate,
    /// D0 and D2: the same of a byte, by one and by CL.
    Two8,
    /// D1 and D3: the same of a word and more.
    Two,
    /// F6: TEST to IDIV of a byte.
    Three8,
    /// F7: the same of a word and more.
    Three,
    /// FE: INC and DEC of a byte.
    Four,
    /// FF: INC to PUSH.
    Five,
    /// 0F 00.
    Six,
    /// 0F 01.
    Seven,
    /// 0F BA: BT to BTC by an immediate.
    Eight,
    /// 0F C7.
    Nine,
    /// C6: MOV of a byte.
    Eleven8,
    /// C7: MOV of a word and more.
    Eleven,
    /// 0F 71: shifts of words.
    Twelve,
    /// The same with VEX.
    TwelveVex,
    /// The same with EVEX.
    TwelveEvex,
    /// 0F 72: shifts of double words.
    Thirteen,
    /// The same with VEX.
    ThirteenVex,
    /// The same with EVEX, and rotations.
    ThirteenEvex,
    /// 0F 73: shifts of quad words.
    Fourteen,
    /// The same with 66, and shifts by bytes.
    Fourteen66,
    /// The same with VEX.
    FourteenVex,
    /// The same with EVEX.
    FourteenEvex,
    /// 0F AE: FXSAVE to SFENCE.
    Fifteen,
    /// The same with 66.
    Fifteen66,
    /// The same with F3.
    FifteenF3,
    /// The same with F2.
    FifteenF2,
    /// The same with VEX.
    FifteenVex,
    /// 0F 38 F3: BLSR to BLSI.
    Seventeen,
    /// 0F 1E with F3: RDSSP and ENDBR64.
    Shadow,
    /// DF: FNSTSW AX is among them.
    Status,
}

/// The rows of which the mandatory prefix chooses, by an opcode that has them.
#[derive(Clone, Copy, Debug, PartialEq, Eq)]
pub enum Prefixed {
    /// 0F 1E
    P1E,
    /// 0F 2C
    P2C,
    /// 0F 41
    P41,
    /// 0F 44
    P44,
    /// 0F 71
    P71,
    /// 0F 72
    P72,
    /// 0F 73
    P73,
    /// 0F 77
    P77,
    /// 0F 78
    P78,
    /// 0F 79
    P79,
    /// 0F 7E
    P7E,
    /// 0F 90
    P90,
    /// 0F 91
    P91,
    /// 0F 92
    P92,
    /// 0F 93
    P93,
    /// 0F 98
    P98,
    /// 0F AE
    PAE,
    /// 0F D6
    PD6,
    /// 0F 38 10
    P3810,
    /// 0F 38 11
    P3811,
    /// 0F 38 13
    P3813,
    /// 0F 38 20
    P3820,
    /// 0F 38 90
    P3890,
    /// 0F 38 F1
    P38F1,
    /// 0F 38 F5
    P38F5,
    /// 0F 38 F6
    P38F6,
}

/// An opcode in a map.
#[derive(Clone, Copy, Debug, PartialEq, Eq)]
pub enum Row {
    /// No instruction.
    Undefined,
    Always(Cell),
    /// ModRM's mod and reg field choose.
    Group(Group),
    /// The mandatory prefix chooses.
    ByPrefix(Prefixed),
}
