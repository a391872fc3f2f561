//! Globals: their names, their bytes, and the rules of their declarations (C11, 6.7.9).

ghost use Rattle.std.specs.Prelude.{◌≡◌, ◌+◌, ◌*◌, ◌^◌, ◌<◌, ◌++◌, length, IfOk, OnOk, drop, not};
ghost use Rattle.std.specs.Prelude.{replicate, map, option_map};
ghost use Rattle.c_resolved.specs.declared.fault.Fault.TheVariants.{Duplicate};
ghost use Rattle.c_resolved.specs.Program as definitions;
ghost use Rattle.c_resolved.specs.Scopes.{spelled};
ghost use Rattle.c_resolved.specs.Statements.{is_taken, with_name, unless_holds};
ghost use Rattle.c_resolved.specs.Types.{bytes_in};
ghost use Rattle.c_resolved.specs.Layout.{stored_bytes};
ghost use Rattle.c_syntax.specs.Program as trees;
ghost use Rattle.c_locals.specs.Files.{DeclaresByRule};
ghost use Rattle.c_expressions.specs.Kept.{AddsFaults};
ghost use Rattle.c_expressions.specs.SymbolTables.{with_block};
ghost use Rattle.c_expressions.specs.Views.{entity};

use crate::lengths::check_length;
use c_expressions::least::LeastFault;
use c_expressions::scopes::{Entity, declare, is_taken, spelled};
use c_expressions::symbol_table::SymbolTable;
use c_expressions::values::unless_holds;
use c_lex::token::IntegerType;
use c_resolved::fault::Fault;
use c_syntax::declaration::{Constant, Global as Declarator, Initialiser, Length};
use c_syntax::expression::{Base, CType, Identifier, Literal};
use c_types::types::{bytes_in, is_scalar, stored_bytes};
use host_layout::range::FIRST_DATA;
use seh_num::extension::{wrap, zero_extend};
use seh_num::width::Width;
use std::alloc::{AllocError, Global};

/// What a walk over the declarations of a file carries along.
#[derive(Drop)]
pub struct File<'a> {
    /// The names of the file so far.
    pub names: SymbolTable<'a>,
    /// The bytes of the globals so far, from the first address of the data on.
    pub bytes: Vec<u8>,
    /// How many functions there are so far, which is the number of the next one.
    pub functions: u64,
    /// The least fault so far.
    pub faults: LeastFault,
}

/// The value of a literal modulo 2^64.
fn literal_value(literal: Literal) -> u64
    ensures { result ≡ definitions.literal_value literal }
{
    match literal {
        Literal::Integer { value, .. } => value,
        Literal::CharacterConstant(value) => wrap(Width::W64, i128::from(value)),
    }
}

/// The value of a negated literal modulo 2^64. It is negated in its type (C11, 6.2.5 and 6.5.3.3).
fn negated(literal: Literal) -> u64
    ensures { result ≡ definitions.negated literal }
{
    match literal {
        Literal::Integer {
            value,
            of: IntegerType::Unsigned,
        } => zero_extend(Width::W32, value.wrapping_neg()),
        Literal::Integer {
            value,
            of: IntegerType::Int | IntegerType::LongLong | IntegerType::UnsignedLongLong,
        } => value.wrapping_neg(),
        Literal::CharacterConstant(value) => wrap(Width::W64, i128::from(value)).wrapping_neg(),
    }
}

/// The value of a constant modulo 2^64.
fn constant_value(constant: Constant) -> u64
    ensures { result ≡ definitions.constant_value constant }
{
    if constant.negative {
        negated(constant.literal)
    } else {
        literal_value(constant.literal)
    }
}

/// The lowest bytes of a number, the lowest first.
fn put_number(bytes: &mut Vec<u8>, count: u64, value: u64) -> Result<(), AllocError>
    ensures { OnOk result (bytes.new.items ≡
        bytes.old.items ++ definitions.bytes_of_number count value) }
{
    if count == 0 {
        return Ok(());
    }
    bytes.push((value % 256) as u8)?;
    put_number(bytes, count - 1, value / 256)
}

/// So many bytes 0.
fn put_zeros(bytes: &mut Vec<u8>, count: u64) -> Result<(), AllocError>
    ensures { OnOk result (bytes.new.items ≡ bytes.old.items ++ replicate count 0) }
{
    let mut left = count;
    while 0 < left {
        bytes.push(0)?;
        left -= 1;
    }
    Ok(())
}

/// How many bytes an array has; as many as 2^64 are more than there are.
fn array_bytes(length: Length, t: CType) -> Result<u64, AllocError>
    ensures { IfOk result (λ n. n ≡ length.value * stored_bytes t) }
{
    match length.value.checked_mul(stored_bytes(t)) {
        Some(count) => Ok(count),
        None => Err(AllocError),
    }
}

/// The bytes of an array by the constants of its initialiser, and zeros after them.
fn put_list(
    alloc: Global,
    bytes: &mut Vec<u8>,
    count: u64,
    size: u64,
    list: &[Constant],
) -> Result<(), AllocError>
    ensures { OnOk result (bytes.new.items ≡
        bytes.old.items ++ definitions.filled count (definitions.bytes_of_all size list.now)) }
{
    let mut own = Vec::new(alloc);
    for constant in list {
        put_number(&mut own, size, constant_value(*constant))?;
    }
    put_filled(bytes, count, &own)
}

/// So many bytes, of which these are the first, and zeros after them.
fn put_filled(bytes: &mut Vec<u8>, count: u64, own: &[u8]) -> Result<(), AllocError>
    ensures { OnOk result (bytes.new.items ≡ bytes.old.items ++ definitions.filled count own.now) }
{
    let length = own.len() as u64;
    if count <= length {
        bytes.extend_from_slice(&own[..count as usize])?;
        return Ok(());
    }
    bytes.extend_from_slice(own)?;
    put_zeros(bytes, count - length)
}

/// The bytes of a global at the start, and the faults of its initialiser.
fn put_initial_value(
    alloc: Global,
    bytes: &mut Vec<u8>,
    faults: &mut LeastFault,
    t: CType,
    length: Option<Length>,
    initialiser: &Option<Initialiser>,
) -> Result<(), AllocError>
    ensures bytes { OnOk result (bytes.new.items ≡ bytes.old.items ++
        (definitions.initial_value t length
        (option_map trees.initialiser initialiser.now)).bytes) }
    ensures faults { OnOk result (AddsFaults faults.old faults.new
        (definitions.initial_value t length
        (option_map trees.initialiser initialiser.now)).faults) }
{
    match (length, initialiser) {
        (None, None) => put_zeros(bytes, stored_bytes(t)),
        (None, Some(Initialiser::Single(constant))) => {
            put_number(bytes, stored_bytes(t), constant_value(*constant))
        }
        (None, Some(Initialiser::List { at, .. })) => {
            faults.add(*at, Fault::BadInitialiser);
            put_zeros(bytes, stored_bytes(t))
        }
        (Some(length), None) => put_zeros(bytes, array_bytes(length, t)?),
        (Some(length), Some(Initialiser::Single(constant))) => {
            faults.add(constant.at, Fault::BadInitialiser);
            put_zeros(bytes, array_bytes(length, t)?)
        }
        (Some(length), Some(Initialiser::List { constants, .. })) => {
            too_many(faults, length.value, constants);
            put_list(
                alloc,
                bytes,
                array_bytes(length, t)?,
                stored_bytes(t),
                constants,
            )
        }
    }
}

/// The first constant too many.
fn too_many(faults: &mut LeastFault, length: u64, constants: &[Constant])
    ensures { AddsFaults faults.old faults.new (definitions.too_many (drop length constants.now)) }
{
    if length < constants.len() as u64 {
        faults.add(constants[length as usize].at, Fault::BadInitialiser);
    }
}

/// Zeros up to the next place that is a multiple of the size.
fn pad(bytes: &mut Vec<u8>, size: u64) -> Result<(), AllocError>
    requires { 0 < size }
    ensures { OnOk result (bytes.new.items ≡ definitions.padded size bytes.old.items) }
{
    let end = bytes.len() as u64;
    put_zeros(bytes, (size - end % size) % size)
}

/// A name of the file; its first declaration counts.
pub fn name<'a>(
    text: &'a [u8],
    file: &mut File<'a>,
    name: Identifier,
    meaning: Entity<'a>,
) -> Result<(), AllocError>
    ensures names { OnOk result (file.new.names ≡ with_block file.old.names
        (with_name file.old.names.block (spelled text.now name) (entity meaning.entry))) }
    ensures bytes { OnOk result (file.new.bytes ≡ file.old.bytes) }
    ensures functions { OnOk result (file.new.functions ≡ file.old.functions) }
    ensures faults { OnOk result (AddsFaults file.old.faults file.new.faults
        (unless_holds (not (is_taken file.old.names.block (spelled text.now name)))
        name.start Duplicate)) }
{
    let bytes = spelled(text, name);
    unless_holds(
        &mut file.faults,
        !is_taken(bytes, &file.names),
        name.start,
        Fault::Duplicate,
    );
    declare(bytes, meaning, &mut file.names)
}

fn end_of(bytes: &Vec<u8>) -> u64
    ensures value { result ≡ length bytes.now.items }
    ensures small { result < 2 ^ 63 }
{
    bytes.len() as u64
}

/// What a global is.
fn meaning_of<'a>(of: CType, address: u64, length: Option<Length>) -> Entity<'a>
    ensures { entity result ≡ definitions.global_entity of address length }
{
    match length {
        None => Entity::GlobalVariable { address, of },
        Some(_) => Entity::GlobalArray { address, of },
    }
}

/// A global.
fn global<'a>(
    alloc: Global,
    text: &'a [u8],
    file: &mut File<'a>,
    base: Base,
    g: &Declarator,
) -> Result<(), AllocError>
    ensures { OnOk result (DeclaresByRule file.old file.new
        (definitions.with_global text.now base (trees.global g.now))) }
{
    let of = CType {
        base,
        pointers: g.pointers,
    };
    pad(&mut file.bytes, bytes_in(of))?;
    let address = FIRST_DATA + end_of(&file.bytes);
    name(text, file, g.name, meaning_of(of, address, g.length))?;
    unless_holds(
        &mut file.faults,
        is_scalar(of),
        g.name.start,
        Fault::TypeClash,
    );
    check_length(&mut file.faults, g.length);
    put_initial_value(
        alloc,
        &mut file.bytes,
        &mut file.faults,
        of,
        g.length,
        &g.initialiser,
    )
}

/// The globals of a declaration.
pub fn globals<'a>(
    alloc: Global,
    text: &'a [u8],
    file: &mut File<'a>,
    base: Base,
    list: &[Declarator],
) -> Result<(), AllocError>
    ensures { OnOk result (DeclaresByRule file.old file.new
        (definitions.with_globals text.now base (map trees.global list.now))) }
{
    for g in list {
        global(alloc, text, file, base, g)?;
    }
    Ok(())
}
