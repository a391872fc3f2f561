//! The opcode maps, looked up (Intel manual, volume 2, appendix A, "Opcode Map").

ghost use Rattle.std.specs.Prelude.{◌≡◌, ◌<◌};
ghost use Rattle.x64_lengths.specs.Maps as spec;

use crate::spelled::{Kind, Mandatory, Map, Spelled};
use x64_maps::cell::{Cell, Form, Prefixed, Row};
use x64_maps::groups::GROUPS;
use x64_maps::one_byte::ONE_BYTE;
use x64_maps::prefixed::{PREFIXED, PREFIXED_ROWS};
use x64_maps::three_byte_3a::{THREE_BYTE_3A, THREE_BYTE_3A_SPELLINGS};
use x64_maps::three_byte_38::{THREE_BYTE_38, THREE_BYTE_38_SPELLINGS};
use x64_maps::two_byte::{TWO_BYTE, TWO_BYTE_SPELLINGS};

/// The row of an opcode.
#[tactic(auto, unfolding(crate::specs::Maps::row))]
fn row(map: Map, opcode: u8) -> Row
    ensures { result ≡ spec.row map opcode }
{
    let (high, low) = (opcode as usize / 16, opcode as usize % 16);
    match map {
        Map::OneByte => ONE_BYTE[high][low],
        Map::TwoByte => TWO_BYTE[high][low],
        Map::ThreeByte38 => THREE_BYTE_38[high][low],
        Map::ThreeByte3A => THREE_BYTE_3A[high][low],
    }
}

/// The spellings in which an opcode is there.
#[tactic(auto, unfolding(crate::specs::Maps::mask))]
fn mask(map: Map, opcode: u8) -> u16
    ensures { result ≡ spec.mask map opcode }
{
    let (high, low) = (opcode as usize / 8, opcode as usize % 8);
    match map {
        Map::OneByte => 0xF,
        Map::TwoByte => TWO_BYTE_SPELLINGS[high][low],
        Map::ThreeByte38 => THREE_BYTE_38_SPELLINGS[high][low],
        Map::ThreeByte3A => THREE_BYTE_3A_SPELLINGS[high][low],
    }
}

fn is_there(spelled: Spelled) -> bool
    ensures { result ≡ spec.is_there spelled }
{
    let place = 4 * kind_number(spelled.extended.kind) + mandatory_number(spelled.mandatory);
    (mask(spelled.map, spelled.opcode) >> place) & 1 == 1
}

fn prefixed_number(prefixed: Prefixed) -> usize
    ensures value { result ≡ spec.prefixed_number prefixed }
    ensures small { result < PREFIXED_ROWS }
{
    prefixed as usize
}

fn kind_number(kind: Kind) -> usize
    ensures value { result ≡ spec.kind_number kind }
    ensures small { result < 4 }
{
    kind as usize
}

fn mandatory_number(mandatory: Mandatory) -> usize
    ensures value { result ≡ spec.mandatory_number mandatory }
    ensures small { result < 4 }
{
    mandatory as usize
}

/// The row that the mandatory prefix chooses.
#[tactic(auto, unfolding(crate::specs::Maps::by_prefix))]
fn by_prefix(kind: Kind, mandatory: Mandatory, row: Row) -> Row
    ensures { result ≡ spec.by_prefix kind mandatory row }
{
    match row {
        Row::ByPrefix(prefixed) => {
            let number = prefixed_number(prefixed);
            PREFIXED[number][kind_number(kind)][mandatory_number(mandatory)]
        }
        _ => row,
    }
}

/// The row of an opcode with its prefixes.
pub(crate) fn row_of(spelled: Spelled) -> Row
    ensures { result ≡ spec.row_of spelled }
{
    if is_there(spelled) {
        by_prefix(
            spelled.extended.kind,
            spelled.mandatory,
            row(spelled.map, spelled.opcode),
        )
    } else {
        Row::Undefined
    }
}

/// The row that ModRM chooses.
#[tactic(auto, unfolding(crate::specs::Maps::by_modrm))]
pub(crate) fn by_modrm(modrm: u8, row: Row) -> Row
    ensures { result ≡ spec.by_modrm modrm row }
{
    match row {
        Row::Group(group) => {
            let form = if modrm / 64 == 3 { 1 } else { 0 };
            GROUPS[group as usize][form][modrm as usize / 8 % 8]
        }
        _ => row,
    }
}

/// Whether ModRM follows.
pub(crate) fn has_modrm(row: Row) -> bool
    ensures { result ≡ spec.has_modrm row }
{
    match row {
        Row::Always(cell) => !matches!(cell.form, Form::Nothing),
        Row::Group(_) => true,
        _ => false,
    }
}

/// The cell of a row of which nothing has still to choose.
pub(crate) fn cell_of(row: Row) -> Option<Cell>
    ensures { result ≡ spec.cell_of row }
{
    match row {
        Row::Always(cell) => Some(cell),
        _ => None,
    }
}
