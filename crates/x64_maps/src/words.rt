//! The words of the opcode maps: what a cell says, by letters.
//!
//! - M ModRM follows, m in memory form alone, r in register form alone, a as a register always;
//! - b, w, z, v, q, n an immediate of Ib, Iw, Iz, Iv, Ov, Iw and Ib;
//! - E, G, O written: ModRM's r/m, its reg field, the opcode's low bits; e, g, o the same as a byte
//!   register;
//! - A, D, C, B, S, P, I, J, R written: RAX, RDX, RCX, RBX, RSP, RBP, RSI, RDI, R11;
//! - y written: RCX where the instruction is repeated; N the general register of VEX.vvvv;
//! - V, W, Y, U, Z, X a vector register written: ModRM's reg field, its r/m, VEX.vvvv, the first
//!   and the third, each, XMM0;
//! - j, k, c, t, K, L, x, i the flow: conditional, a jump, a call, a return, an indirect jump, an
//!   indirect call, no further, INT.

use crate::cell::{Cell, Ending, Form, Group, Immediate, Part, Prefixed, Row, Vector};

// A register's bit in a set.
const RAX: u32 = 1 << 0;

const RCX: u32 = 1 << 1;

const RDX: u32 = 1 << 2;

const RBX: u32 = 1 << 3;

const RSP: u32 = 1 << 4;

const RBP: u32 = 1 << 5;

const RSI: u32 = 1 << 6;

const RDI: u32 = 1 << 7;

const R11: u32 = 1 << 11;

/// A cell without operands that writes nothing.
pub const NOTHING: Cell = Cell {
    form: Form::Nothing,
    immediate: Immediate::Nothing,
    rm: Part::Nothing,
    reg: Part::Nothing,
    low: Part::Nothing,
    vvvv: false,
    fixed: 0,
    counted: false,
    vector: Vector::Nothing,
    ending: Ending::Next,
};

macro_rules! word {
    (@ $cell:expr;) => {
        $cell
    };
    (@ $cell:expr; M $($rest:ident)*) => {
        word!(@ Cell { form: Form::Any, ..$cell }; $($rest)*)
    };
    (@ $cell:expr; m $($rest:ident)*) => {
        word!(@ Cell { form: Form::Memory, ..$cell }; $($rest)*)
    };
    (@ $cell:expr; r $($rest:ident)*) => {
        word!(@ Cell { form: Form::Register, ..$cell }; $($rest)*)
    };
    (@ $cell:expr; a $($rest:ident)*) => {
        word!(@ Cell { form: Form::AlwaysRegister, ..$cell }; $($rest)*)
    };
    (@ $cell:expr; b $($rest:ident)*) => {
        word!(@ Cell { immediate: Immediate::Byte, ..$cell }; $($rest)*)
    };
    (@ $cell:expr; w $($rest:ident)*) => {
        word!(@ Cell { immediate: Immediate::Word, ..$cell }; $($rest)*)
    };
    (@ $cell:expr; n $($rest:ident)*) => {
        word!(@ Cell { immediate: Immediate::WordAndByte, ..$cell }; $($rest)*)
    };
    (@ $cell:expr; z $($rest:ident)*) => {
        word!(@ Cell { immediate: Immediate::Half, ..$cell }; $($rest)*)
    };
    (@ $cell:expr; v $($rest:ident)*) => {
        word!(@ Cell { immediate: Immediate::Whole, ..$cell }; $($rest)*)
    };
    (@ $cell:expr; q $($rest:ident)*) => {
        word!(@ Cell { immediate: Immediate::Address, ..$cell }; $($rest)*)
    };
    (@ $cell:expr; E $($rest:ident)*) => {
        word!(@ Cell { rm: Part::Whole, ..$cell }; $($rest)*)
    };
    (@ $cell:expr; e $($rest:ident)*) => {
        word!(@ Cell { rm: Part::Byte, ..$cell }; $($rest)*)
    };
    (@ $cell:expr; G $($rest:ident)*) => {
        word!(@ Cell { reg: Part::Whole, ..$cell }; $($rest)*)
    };
    (@ $cell:expr; g $($rest:ident)*) => {
        word!(@ Cell { reg: Part::Byte, ..$cell }; $($rest)*)
    };
    (@ $cell:expr; O $($rest:ident)*) => {
        word!(@ Cell { low: Part::Whole, ..$cell }; $($rest)*)
    };
    (@ $cell:expr; o $($rest:ident)*) => {
        word!(@ Cell { low: Part::Byte, ..$cell }; $($rest)*)
    };
    (@ $cell:expr; A $($rest:ident)*) => {
        word!(@ Cell { fixed: $cell.fixed | RAX, ..$cell }; $($rest)*)
    };
    (@ $cell:expr; C $($rest:ident)*) => {
        word!(@ Cell { fixed: $cell.fixed | RCX, ..$cell }; $($rest)*)
    };
    (@ $cell:expr; D $($rest:ident)*) => {
        word!(@ Cell { fixed: $cell.fixed | RDX, ..$cell }; $($rest)*)
    };
    (@ $cell:expr; B $($rest:ident)*) => {
        word!(@ Cell { fixed: $cell.fixed | RBX, ..$cell }; $($rest)*)
    };
    (@ $cell:expr; S $($rest:ident)*) => {
        word!(@ Cell { fixed: $cell.fixed | RSP, ..$cell }; $($rest)*)
    };
    (@ $cell:expr; P $($rest:ident)*) => {
        word!(@ Cell { fixed: $cell.fixed | RBP, ..$cell }; $($rest)*)
    };
    (@ $cell:expr; I $($rest:ident)*) => {
        word!(@ Cell { fixed: $cell.fixed | RSI, ..$cell }; $($rest)*)
    };
    (@ $cell:expr; J $($rest:ident)*) => {
        word!(@ Cell { fixed: $cell.fixed | RDI, ..$cell }; $($rest)*)
    };
    (@ $cell:expr; R $($rest:ident)*) => {
        word!(@ Cell { fixed: $cell.fixed | R11, ..$cell }; $($rest)*)
    };
    (@ $cell:expr; y $($rest:ident)*) => {
        word!(@ Cell { counted: true, ..$cell }; $($rest)*)
    };
    (@ $cell:expr; N $($rest:ident)*) => {
        word!(@ Cell { vvvv: true, ..$cell }; $($rest)*)
    };
    (@ $cell:expr; V $($rest:ident)*) => {
        word!(@ Cell { vector: Vector::Reg, ..$cell }; $($rest)*)
    };
    (@ $cell:expr; W $($rest:ident)*) => {
        word!(@ Cell { vector: Vector::Rm, ..$cell }; $($rest)*)
    };
    (@ $cell:expr; Y $($rest:ident)*) => {
        word!(@ Cell { vector: Vector::Vvvv, ..$cell }; $($rest)*)
    };
    (@ $cell:expr; U $($rest:ident)*) => {
        word!(@ Cell { vector: Vector::RegAndVvvv, ..$cell }; $($rest)*)
    };
    (@ $cell:expr; Z $($rest:ident)*) => {
        word!(@ Cell { vector: Vector::All, ..$cell }; $($rest)*)
    };
    (@ $cell:expr; X $($rest:ident)*) => {
        word!(@ Cell { vector: Vector::Xmm0, ..$cell }; $($rest)*)
    };
    (@ $cell:expr; j $($rest:ident)*) => {
        word!(@ Cell { ending: Ending::Conditional, ..$cell }; $($rest)*)
    };
    (@ $cell:expr; k $($rest:ident)*) => {
        word!(@ Cell { ending: Ending::Jump, ..$cell }; $($rest)*)
    };
    (@ $cell:expr; c $($rest:ident)*) => {
        word!(@ Cell { ending: Ending::Call, ..$cell }; $($rest)*)
    };
    (@ $cell:expr; t $($rest:ident)*) => {
        word!(@ Cell { ending: Ending::Return, ..$cell }; $($rest)*)
    };
    (@ $cell:expr; K $($rest:ident)*) => {
        word!(@ Cell { ending: Ending::JumpIndirect, ..$cell }; $($rest)*)
    };
    (@ $cell:expr; L $($rest:ident)*) => {
        word!(@ Cell { ending: Ending::CallIndirect, ..$cell }; $($rest)*)
    };
    (@ $cell:expr; x $($rest:ident)*) => {
        word!(@ Cell { ending: Ending::Stops, ..$cell }; $($rest)*)
    };
    (@ $cell:expr; i $($rest:ident)*) => {
        word!(@ Cell { ending: Ending::Interrupt, ..$cell }; $($rest)*)
    };
    ($($letter:ident)*) => {
        Row::Always(word!(@ NOTHING; $($letter)*))
    };
}

pub const __: Row = Row::Undefined;

pub const NONE: Row = word!();

pub const Wa: Row = word!(A);

pub const AD: Row = word!(A D);

pub const AIy: Row = word!(A I y);

pub const ABCD: Row = word!(A B C D);

pub const CRA: Row = word!(C R A);

pub const Wd: Row = word!(D);

pub const Iy: Row = word!(I y);

pub const IJy: Row = word!(I J y);

pub const Jy: Row = word!(J y);

pub const Mo: Row = word!(M);

pub const MA: Row = word!(M A);

pub const ME: Row = word!(M E);

pub const MG: Row = word!(M G);

pub const MK: Row = word!(M K);

pub const ML: Row = word!(M L);

pub const MN: Row = word!(M N);

pub const MS: Row = word!(M S);

pub const MU: Row = word!(M U);

pub const MV: Row = word!(M V);

pub const MW: Row = word!(M W);

pub const Mb: Row = word!(M b);

pub const Me: Row = word!(M e);

pub const Mg: Row = word!(M g);

pub const Mz: Row = word!(M z);

pub const MAD: Row = word!(M A D);

pub const MEA: Row = word!(M E A);

pub const MEG: Row = word!(M E G);

pub const MES: Row = word!(M E S);

pub const MGN: Row = word!(M G N);

pub const Mb0: Row = word!(M b X);

pub const MbC: Row = word!(M b C);

pub const MbE: Row = word!(M b E);

pub const MbG: Row = word!(M b G);

pub const MbV: Row = word!(M b V);

pub const MbW: Row = word!(M b W);

pub const MbY: Row = word!(M b Y);

pub const Mbe: Row = word!(M b e);

pub const MeA: Row = word!(M e A);

pub const Meg: Row = word!(M e g);

pub const MzE: Row = word!(M z E);

pub const MzG: Row = word!(M z G);

pub const MADC: Row = word!(M A D C);

pub const Wo: Row = word!(O);

pub const OA: Row = word!(O A);

pub const OS: Row = word!(O S);

pub const Ws: Row = word!(S);

pub const SC: Row = word!(S C);

pub const SP: Row = word!(S P);

pub const Z: Row = word!(Z);

pub const a: Row = word!(a);

pub const aE: Row = word!(a E);

pub const Ib: Row = word!(b);

pub const bA: Row = word!(b A);

pub const bS: Row = word!(b S);

pub const bi: Row = word!(b i);

pub const bj: Row = word!(b j);

pub const bk: Row = word!(b k);

pub const bo: Row = word!(b o);

pub const bjC: Row = word!(b j C);

pub const Mm: Row = word!(m);

pub const mG: Row = word!(m G);

pub const mK: Row = word!(m K);

pub const mL: Row = word!(m L);

pub const mAD: Row = word!(m A D);

pub const nSP: Row = word!(n S P);

pub const Oq: Row = word!(q);

pub const qA: Row = word!(q A);

pub const Mr: Row = word!(r);

pub const rG: Row = word!(r G);

pub const rV: Row = word!(r V);

pub const rbG: Row = word!(r b G);

pub const rbW: Row = word!(r b W);

pub const rbY: Row = word!(r b Y);

pub const tS: Row = word!(t S);

pub const vO: Row = word!(v O);

pub const wtS: Row = word!(w t S);

pub const STOP: Row = word!(x);

pub const Iz: Row = word!(z);

pub const zA: Row = word!(z A);

pub const zS: Row = word!(z S);

pub const zc: Row = word!(z c);

pub const zj: Row = word!(z j);

pub const zk: Row = word!(z k);

pub const G1b: Row = Row::Group(Group::One8);

pub const G1z: Row = Row::Group(Group::One);

pub const G1s: Row = Row::Group(Group::OneSigned);

pub const G1A: Row = Row::Group(Group::OneA);

pub const G2bi: Row = Row::Group(Group::Two8Immediate);

pub const G2i: Row = Row::Group(Group::TwoImmediate);

pub const G2b: Row = Row::Group(Group::Two8);

pub const G2: Row = Row::Group(Group::Two);

pub const G3b: Row = Row::Group(Group::Three8);

pub const G3: Row = Row::Group(Group::Three);

pub const G4: Row = Row::Group(Group::Four);

pub const G5: Row = Row::Group(Group::Five);

pub const G6: Row = Row::Group(Group::Six);

pub const G7: Row = Row::Group(Group::Seven);

pub const G8: Row = Row::Group(Group::Eight);

pub const G9: Row = Row::Group(Group::Nine);

pub const G11b: Row = Row::Group(Group::Eleven8);

pub const G11: Row = Row::Group(Group::Eleven);

pub const G12: Row = Row::Group(Group::Twelve);

pub const G12Y: Row = Row::Group(Group::TwelveVex);

pub const G12M: Row = Row::Group(Group::TwelveEvex);

pub const G13: Row = Row::Group(Group::Thirteen);

pub const G13Y: Row = Row::Group(Group::ThirteenVex);

pub const G13M: Row = Row::Group(Group::ThirteenEvex);

pub const G14: Row = Row::Group(Group::Fourteen);

pub const G14W: Row = Row::Group(Group::Fourteen66);

pub const G14Y: Row = Row::Group(Group::FourteenVex);

pub const G14M: Row = Row::Group(Group::FourteenEvex);

pub const G15: Row = Row::Group(Group::Fifteen);

pub const G1566: Row = Row::Group(Group::Fifteen66);

pub const G15F3: Row = Row::Group(Group::FifteenF3);

pub const G15F2: Row = Row::Group(Group::FifteenF2);

pub const G15V: Row = Row::Group(Group::FifteenVex);

pub const G17: Row = Row::Group(Group::Seventeen);

pub const SHST: Row = Row::Group(Group::Shadow);

pub const X87: Row = Row::Group(Group::Status);

pub const P1E: Row = Row::ByPrefix(Prefixed::P1E);

pub const P2C: Row = Row::ByPrefix(Prefixed::P2C);

pub const P41: Row = Row::ByPrefix(Prefixed::P41);

pub const P44: Row = Row::ByPrefix(Prefixed::P44);

pub const P71: Row = Row::ByPrefix(Prefixed::P71);

pub const P72: Row = Row::ByPrefix(Prefixed::P72);

pub const P73: Row = Row::ByPrefix(Prefixed::P73);

pub const P77: Row = Row::ByPrefix(Prefixed::P77);

pub const P78: Row = Row::ByPrefix(Prefixed::P78);

pub const P79: Row = Row::ByPrefix(Prefixed::P79);

pub const P7E: Row = Row::ByPrefix(Prefixed::P7E);

pub const P90: Row = Row::ByPrefix(Prefixed::P90);

pub const P91: Row = Row::ByPrefix(Prefixed::P91);

pub const P92: Row = Row::ByPrefix(Prefixed::P92);

pub const P93: Row = Row::ByPrefix(Prefixed::P93);

pub const P98: Row = Row::ByPrefix(Prefixed::P98);

pub const PAE: Row = Row::ByPrefix(Prefixed::PAE);

pub const PD6: Row = Row::ByPrefix(Prefixed::PD6);

pub const P3810: Row = Row::ByPrefix(Prefixed::P3810);

pub const P3811: Row = Row::ByPrefix(Prefixed::P3811);

pub const P3813: Row = Row::ByPrefix(Prefixed::P3813);

pub const P3820: Row = Row::ByPrefix(Prefixed::P3820);

pub const P3890: Row = Row::ByPrefix(Prefixed::P3890);

pub const P38F1: Row = Row::ByPrefix(Prefixed::P38F1);

pub const P38F5: Row = Row::ByPrefix(Prefixed::P38F5);

pub const P38F6: Row = Row::ByPrefix(Prefixed::P38F6);
