//! An opcode with the prefixes before it (Intel manual, volume 2, "Instruction Prefixes", "Opcodes"
//! and "REX Prefixes").

ghost use Rattle.std.specs.Prelude.{◌≡◌, ◌<◌, option_map, length};
ghost use Rattle.x64_lengths.specs.Effects as effects;
ghost use Rattle.x64_lengths.specs.Measures as measures;
ghost use Rattle.x64_lengths.specs.Spelled as spec;

use x64_instr::prefixes::Prefixes;
use x64_instr::reading::{bit, byte};

/// The map that an opcode is in.
#[derive(Clone, Copy, Debug, PartialEq, Eq)]
pub enum Map {
    OneByte,
    /// After 0F.
    TwoByte,
    /// After 0F 38.
    ThreeByte38,
    /// After 0F 3A.
    ThreeByte3A,
}

/// The prefix that is a part of the opcode.
#[derive(Clone, Copy, Debug, PartialEq, Eq)]
pub enum Mandatory {
    Nothing,
    P66,
    PF3,
    PF2,
}

/// The legacy prefixes before an opcode. Those of segments change no length and no register.
#[derive(Clone, Copy, Debug, PartialEq, Eq)]
pub struct Legacy {
    /// Whether 66 is among them.
    pub operand_size: bool,
    /// Whether 67 is among them.
    pub address_size: bool,
    /// Whether F0 is among them.
    pub lock: bool,
    /// F3 or F2, the last of them.
    pub repeat: Mandatory,
}

/// Which prefix says the map: none, VEX or EVEX, and the vector's length in VEX.
#[derive(Clone, Copy, Debug, PartialEq, Eq)]
pub enum Kind {
    Legacy,
    Vex128,
    Vex256,
    Evex,
}

/// What VEX and EVEX say beside what REX does (Intel manual, volume 2, "Intel Advanced Vector
/// Extensions (Intel AVX)" and "Intel AVX-512 Encoding").
#[derive(Clone, Copy, Debug, PartialEq, Eq)]
pub struct Extended {
    pub kind: Kind,
    /// The register of vvvv, with V'; 0 without VEX and EVEX.
    pub vvvv: u8,
    /// Whether the vector register of ModRM's reg field is one of 16 to 31 (R').
    pub far_reg: bool,
    /// Whether the vector register of ModRM's r/m is one of 16 to 31 (X).
    pub far_rm: bool,
}

/// An opcode with the prefixes before it.
#[derive(Clone, Copy, Debug, PartialEq, Eq)]
pub struct Spelled {
    pub legacy: Legacy,
    /// Those that operands are read by.
    pub prefixes: Prefixes,
    pub mandatory: Mandatory,
    pub extended: Extended,
    pub map: Map,
    pub opcode: u8,
}

const NOT_EXTENDED: Extended = Extended {
    kind: Kind::Legacy,
    vvvv: 0,
    far_reg: false,
    far_rm: false,
};

const NO_LEGACY: Legacy = Legacy {
    operand_size: false,
    address_size: false,
    lock: false,
    repeat: Mandatory::Nothing,
};

fn is_legacy(first: u8) -> bool
    ensures { result ≡ spec.is_legacy first }
{
    matches!(
        first,
        0x26 | 0x2E | 0x36 | 0x3E | 0x64 | 0x65 | 0x66 | 0x67 | 0xF0 | 0xF2 | 0xF3
    )
}

impl Legacy {
    fn with(self, first: u8) -> Legacy
        ensures { result ≡ spec.with_prefix first self }
    {
        Legacy {
            operand_size: self.operand_size || first == 0x66,
            address_size: self.address_size || first == 0x67,
            lock: self.lock || first == 0xF0,
            repeat: match first {
                0xF2 => Mandatory::PF2,
                0xF3 => Mandatory::PF3,
                _ => self.repeat,
            },
        }
    }
}

impl Spelled {
    /// Whether F2 or F3 is there.
    pub(crate) fn is_repeated(self) -> bool
        ensures { result ≡ effects.is_repeat self.legacy.repeat }
    {
        matches!(self.legacy.repeat, Mandatory::PF2 | Mandatory::PF3)
    }

    /// Whether there is REX.W.
    pub(crate) fn is_wide(self) -> bool
        ensures { result ≡ measures.is_wide self }
    {
        bit(3, self.prefixes.rex) == 1
    }
}

/// The legacy prefixes at the front, after others.
fn legacy_prefixes(before: Legacy, bytes: &[u8]) -> (Legacy, &[u8])
    ensures { (result.0, result.1.now) ≡ spec.legacy_prefixes before bytes.now }
{
    match bytes {
        [first, rest @ ..] if is_legacy(*first) => legacy_prefixes(before.with(*first), rest),
        _ => (before, bytes),
    }
}

impl Legacy {
    /// The mandatory prefix: F3 or F2, else 66.
    fn mandatory(self) -> Mandatory
        ensures { result ≡ spec.mandatory self }
    {
        match self.repeat {
            Mandatory::Nothing if self.operand_size => Mandatory::P66,
            repeat => repeat,
        }
    }

    /// Whether VEX and EVEX may follow.
    fn allows_vex(self) -> bool
        ensures { result ≡ spec.allows_vex self }
    {
        !self.operand_size && !self.lock && matches!(self.repeat, Mandatory::Nothing)
    }
}

fn made(legacy: Legacy, prefixes: Prefixes, map: Map, opcode: u8) -> Spelled
    ensures { result ≡ spec.made legacy prefixes map opcode }
{
    Spelled {
        legacy,
        prefixes,
        mandatory: legacy.mandatory(),
        extended: NOT_EXTENDED,
        map,
        opcode,
    }
}

/// The opcode, with its first byte.
fn opcode(legacy: Legacy, prefixes: Prefixes, first: u8, bytes: &[u8]) -> Option<(Spelled, &[u8])>
    ensures { option_map (λ x. (x.0, x.1.now)) result
        ≡ spec.opcode legacy prefixes first bytes.now }
{
    if first != 0x0F {
        return Some((made(legacy, prefixes, Map::OneByte, first), bytes));
    }
    let (second, rest) = byte(bytes)?;
    match second {
        0x38 => {
            let (third, rest) = byte(rest)?;
            Some((made(legacy, prefixes, Map::ThreeByte38, third), rest))
        }
        0x3A => {
            let (third, rest) = byte(rest)?;
            Some((made(legacy, prefixes, Map::ThreeByte3A, third), rest))
        }
        _ => Some((made(legacy, prefixes, Map::TwoByte, second), rest)),
    }
}

/// The map of VEX's mmmmm and EVEX's mmm.
fn map_of(number: u8) -> Option<Map>
    ensures { result ≡ spec.map_of number }
{
    match number {
        1 => Some(Map::TwoByte),
        2 => Some(Map::ThreeByte38),
        3 => Some(Map::ThreeByte3A),
        _ => None,
    }
}

/// The mandatory prefix of pp.
fn mandatory_of(pp: u8) -> Mandatory
    ensures { result ≡ spec.mandatory_of pp }
{
    match pp {
        0 => Mandatory::Nothing,
        1 => Mandatory::P66,
        2 => Mandatory::PF3,
        _ => Mandatory::PF2,
    }
}

fn vex_kind(last: u8) -> Kind
    ensures { result ≡ spec.vex_kind last }
{
    if bit(2, last) == 1 {
        Kind::Vex256
    } else {
        Kind::Vex128
    }
}

/// The opcode after VEX or EVEX, with the bits W, R, X and B that REX would have.
fn after_vex(
    legacy: Legacy,
    rex: u8,
    extended: Extended,
    map: Map,
    last: u8,
    bytes: &[u8],
) -> Option<(Spelled, &[u8])>
    ensures { option_map (λ x. (x.0, x.1.now)) result
        ≡ spec.after_vex legacy rex extended map last bytes.now }
{
    let (opcode, rest) = byte(bytes)?;
    let prefixes = Prefixes {
        operand_size: false,
        has_rex: true,
        rex,
    };
    let mandatory = mandatory_of(last % 4);
    Some((
        Spelled {
            legacy,
            prefixes,
            mandatory,
            extended,
            map,
            opcode,
        },
        rest,
    ))
}

/// VEX of two bytes, C5.
fn vex_2(legacy: Legacy, bytes: &[u8]) -> Option<(Spelled, &[u8])>
    ensures { option_map (λ x. (x.0, x.1.now)) result ≡ spec.vex_2 legacy bytes.now }
{
    let (last, rest) = byte(bytes)?;
    let extended = Extended {
        kind: vex_kind(last),
        vvvv: 15 - last / 8 % 16,
        far_reg: false,
        far_rm: false,
    };
    let rex = 4 * (1 - last / 128);
    after_vex(legacy, rex, extended, Map::TwoByte, last, rest)
}

/// VEX of three bytes, C4.
fn vex_3(legacy: Legacy, bytes: &[u8]) -> Option<(Spelled, &[u8])>
    ensures { option_map (λ x. (x.0, x.1.now)) result ≡ spec.vex_3 legacy bytes.now }
{
    let (first, rest) = byte(bytes)?;
    let (last, rest) = byte(rest)?;
    let map = map_of(first % 32)?;
    let extended = Extended {
        kind: vex_kind(last),
        vvvv: 15 - last / 8 % 16,
        far_reg: false,
        far_rm: false,
    };
    let rex = 8 * (last / 128) + (7 - first / 32);
    after_vex(legacy, rex, extended, map, last, rest)
}

/// EVEX, 62.
fn evex(legacy: Legacy, bytes: &[u8]) -> Option<(Spelled, &[u8])>
    ensures { option_map (λ x. (x.0, x.1.now)) result ≡ spec.evex legacy bytes.now }
{
    let (first, rest) = byte(bytes)?;
    let (middle, rest) = byte(rest)?;
    let (last, rest) = byte(rest)?;
    let map = map_of(first % 16)?;
    if bit(2, middle) != 1 {
        return None;
    }
    let extended = Extended {
        kind: Kind::Evex,
        vvvv: 16 * (1 - bit(3, last)) + (15 - middle / 8 % 16),
        far_reg: bit(4, first) == 0,
        far_rm: bit(6, first) == 0,
    };
    let rex = 8 * (middle / 128) + (7 - first / 32);
    after_vex(legacy, rex, extended, map, middle, rest)
}

/// REX and the opcode.
fn with_rex(legacy: Legacy, first: u8, bytes: &[u8]) -> Option<(Spelled, &[u8])>
    ensures { option_map (λ x. (x.0, x.1.now)) result ≡ spec.with_rex legacy first bytes.now }
{
    let operand_size = legacy.operand_size;
    if first / 16 != 4 {
        let prefixes = Prefixes {
            operand_size,
            has_rex: false,
            rex: 0,
        };
        return opcode(legacy, prefixes, first, bytes);
    }
    let (second, rest) = byte(bytes)?;
    let prefixes = Prefixes {
        operand_size,
        has_rex: true,
        rex: first % 16,
    };
    opcode(legacy, prefixes, second, rest)
}

/// REX, VEX or EVEX, and the opcode.
#[tactic(auto, unfolding(crate::specs::Spelled::after_first))]
fn after_first(legacy: Legacy, first: u8, bytes: &[u8]) -> Option<(Spelled, &[u8])>
    ensures { option_map (λ x. (x.0, x.1.now)) result ≡ spec.after_first legacy first bytes.now }
{
    match first {
        0xC5 if legacy.allows_vex() => vex_2(legacy, bytes),
        0xC4 if legacy.allows_vex() => vex_3(legacy, bytes),
        0x62 if legacy.allows_vex() => evex(legacy, bytes),
        _ => with_rex(legacy, first, bytes),
    }
}

/// The prefixes and the opcode at the front.
#[tactic(auto, unfolding(crate::specs::Spelled::prefixes_and_opcode))]
pub(crate) fn prefixes_and_opcode(bytes: &[u8]) -> Option<(Spelled, &[u8])>
    ensures { option_map (λ x. (x.0, x.1.now)) result ≡ spec.prefixes_and_opcode bytes.now }
{
    let (legacy, rest) = legacy_prefixes(NO_LEGACY, bytes);
    let (first, rest) = byte(rest)?;
    after_first(legacy, first, rest)
}
