//! Refusals, each with its line and its status.

ghost use Rattle.std.specs.Prelude.{◌≡◌, ◌+◌, ◌≤◌, ◌++◌, length};
ghost use Rattle.seh.specs.Refusals.{refusal_status, refusal_text, text_status, text_line, lex_text, count_text, parse_text, rule_name, check_text, image_text, number_pair, table_numbers, table_name, table_text, load_text, named, Reported};
ghost use Rattle.seh.specs.Streams.{stream};

use crate::status::Status;
use c_lex::lexing::LexErr;
use c_parse_expr::refusal::ParseErr;
use c_resolved::fault::Fault;
use c_syntax::limit::Count;
use c_text::accepting::TextErr;
use pe_image::ImageErr;
use seh_host::{LoadErr, TableErr};
use seh_io::line::Line;
use seh_io::sink::Sink;
use seh_io::writing::put_all;

/// Why a command wasn't carried out.
#[derive(Clone, Copy, Debug, PartialEq, Eq)]
pub enum Refusal {
    /// The words are no line of the command set; nothing was read.
    Usage,
    /// The source had a fault.
    ReadFault,
    /// The source holds more than so many bytes.
    TooLong { limit: u64 },
    /// The text isn't accepted.
    Text(TextErr),
    /// The bytes are no image.
    Image(ImageErr),
    /// The image can't be loaded, or its function table can't be read.
    Load(LoadErr),
    /// The sink had a fault.
    WriteFault,
    /// No memory was left.
    NoMemory,
}

impl Refusal {
    /// The status of a refusal.
    pub fn status(&self) -> Status
        ensures { result ≡ refusal_status self.now }
    {
        match self {
            Refusal::Usage => Status::Usage,
            Refusal::ReadFault => Status::ReadFault,
            Refusal::TooLong { .. } => Status::TooLong,
            Refusal::Text(error) => text_status(error),
            Refusal::Image(ImageErr::Memory) | Refusal::Load(LoadErr::Memory) => Status::NoMemory,
            Refusal::Image(_) | Refusal::Load(_) => Status::Image,
            Refusal::WriteFault => Status::WriteFault,
            Refusal::NoMemory => Status::NoMemory,
        }
    }
}

/// The status of a text's refusal.
fn text_status(error: &TextErr) -> Status
    ensures { result ≡ text_status error.now }
{
    match error {
        TextErr::Lex(LexErr::Memory) | TextErr::Parse(ParseErr::Memory) | TextErr::Memory => {
            Status::NoMemory
        }
        TextErr::Lex(_) | TextErr::Parse(_) | TextErr::Check { .. } => Status::Refused,
    }
}

/// A name and a number after it.
pub fn named(line: &mut Line, name: &[u8], number: u64)
    requires { length line.old + length name.now ≤ 43 }
    ensures value { line.new ≡ line.old ++ named name.now number }
    ensures len { length line.new ≤ 63 }
{
    line.text(name);
    line.natural(number);
}

/// Adds two numbers.
fn put_pair(line: &mut Line, first: u64, second: u64)
    requires { length line.old ≤ 22 }
    ensures value { line.new ≡ line.old ++ number_pair first second }
    ensures len { length line.new ≤ 63 }
{
    line.natural(first);
    line.text(b" ");
    line.natural(second);
}

/// The text of a refusal of bytes that are no tokens.
fn lex_text(error: &LexErr) -> Line
    ensures value { result ≡ lex_text error.now }
    ensures len { length result ≤ 63 }
{
    let mut line = Line::new();
    match error {
        LexErr::BadByte { at } => named(&mut line, b"refused BadByte ", *at),
        LexErr::OpenComment { at } => named(&mut line, b"refused OpenComment ", *at),
        LexErr::BadChar { at } => named(&mut line, b"refused BadChar ", *at),
        LexErr::BigLiteral { at } => named(&mut line, b"refused BigLiteral ", *at),
        LexErr::Memory => line.text(b"no memory"),
    }
    line
}

/// The word for what there are too many of.
fn count_text(what: Count) -> &'static [u8]
    ensures value { result.now ≡ count_text what }
    ensures len { length result.now ≤ 11 }
{
    match what {
        Count::Locals => b" locals",
        Count::ArrayBytes => b" arraybytes",
        Count::Parameters => b" parameters",
        Count::Functions => b" functions",
        Count::Globals => b" globals",
        Count::Funclets => b" funclets",
    }
}

/// The text of a refusal of tokens that are no program.
fn parse_text(error: &ParseErr) -> Line
    ensures value { result ≡ parse_text error.now }
    ensures len { length result ≤ 63 }
{
    let mut line = Line::new();
    match error {
        ParseErr::Unexpected { at } => named(&mut line, b"refused Unexpected ", *at),
        ParseErr::TooDeep { at } => named(&mut line, b"refused TooDeep ", *at),
        ParseErr::TooMany { at, what } => {
            line.text(b"refused TooMany ");
            line.natural(*at);
            line.text(count_text(*what));
        }
        ParseErr::Memory => line.text(b"no memory"),
    }
    line
}

/// The name of a rule.
fn rule_name(fault: Fault) -> &'static [u8]
    ensures value { result.now ≡ rule_name fault }
    ensures len { length result.now ≤ 22 }
{
    match fault {
        Fault::NoMain => b"NoMain",
        Fault::UnknownName => b"UnknownName",
        Fault::Duplicate => b"Duplicate",
        Fault::NotLvalue => b"NotLvalue",
        Fault::TypeClash => b"TypeClash",
        Fault::ArgCount => b"ArgCount",
        Fault::LeaveOutsideTry => b"LeaveOutsideTry",
        Fault::JumpOutOfFinally => b"JumpOutOfFinally",
        Fault::JumpOutsideLoop => b"JumpOutsideLoop",
        Fault::CodeOutsideFilter => b"CodeOutsideFilter",
        Fault::InfoOutsideFilter => b"InfoOutsideFilter",
        Fault::AbnormalOutsideFinally => b"AbnormalOutsideFinally",
        Fault::BadInitialiser => b"BadInitialiser",
    }
}

/// The text of a refusal of a program that breaks a rule.
fn check_text(at: u64, fault: Fault) -> Line
    ensures value { result ≡ check_text at fault }
    ensures len { length result ≤ 63 }
{
    let mut line = Line::new();
    line.text(b"refused ");
    line.text(rule_name(fault));
    line.text(b" ");
    line.natural(at);
    line
}

/// The text of a text's refusal.
fn text_line(error: &TextErr) -> Line
    ensures value { result ≡ text_line error.now }
    ensures len { length result ≤ 63 }
{
    match error {
        TextErr::Lex(error) => lex_text(error),
        TextErr::Parse(error) => parse_text(error),
        TextErr::Check { at, fault } => check_text(*at, *fault),
        TextErr::Memory => plain(b"no memory"),
    }
}

/// The text of an image's refusal.
fn image_text(error: &ImageErr) -> Line
    ensures value { result ≡ image_text error.now }
    ensures len { length result ≤ 63 }
{
    let mut line = Line::new();
    match error {
        ImageErr::Truncated { at } => named(&mut line, b"image Truncated ", *at),
        ImageErr::NotPe { at } => named(&mut line, b"image NotPe ", *at),
        ImageErr::Machine { found } => named(&mut line, b"image Machine ", *found),
        ImageErr::Magic { found } => named(&mut line, b"image Magic ", *found),
        ImageErr::Layout { section } => named(&mut line, b"image Layout ", *section),
        ImageErr::ImportBad { index } => named(&mut line, b"image ImportBad ", *index),
        ImageErr::Memory => line.text(b"no memory"),
    }
    line
}

/// The numbers after the name of a function table's refusal.
fn put_numbers(line: &mut Line, error: &TableErr)
    requires { length line.old ≤ 22 }
    ensures value { line.new ≡ line.old ++ table_numbers error.now }
    ensures len { length line.new ≤ 63 }
{
    match error {
        TableErr::Truncated { rva } => line.natural(*rva),
        TableErr::Misaligned { rva } => line.natural(*rva),
        TableErr::EmptyRange { index } => line.natural(*index),
        TableErr::Unsorted { index } => line.natural(*index),
        TableErr::Version { index, found } => put_pair(line, *index, u64::from(*found)),
        TableErr::Flags { index } => line.natural(*index),
        TableErr::Op { index, slot } => put_pair(line, *index, *slot),
        TableErr::CodeOrder { index, slot } => put_pair(line, *index, *slot),
        TableErr::ChainLong { index } => line.natural(*index),
        TableErr::ScopeRange { index, row } => put_pair(line, *index, *row),
    }
}

/// The name of a function table's refusal, before its numbers.
fn table_name(error: &TableErr) -> Line
    ensures value { result ≡ table_name error.now }
    ensures len { length result ≤ 22 }
{
    let mut line = Line::new();
    line.text(b"table ");
    line.text(error.name());
    line.text(b" ");
    line
}

/// The text of a function table's refusal.
fn table_text(error: &TableErr) -> Line
    ensures value { result ≡ table_text error.now }
    ensures len { length result ≤ 63 }
{
    let mut line = table_name(error);
    put_numbers(&mut line, error);
    line
}

/// The text of a load's refusal.
fn load_text(error: &LoadErr) -> Line
    ensures value { result ≡ load_text error.now }
    ensures len { length result ≤ 63 }
{
    let mut line = Line::new();
    match error {
        LoadErr::Table(error) => return table_text(error),
        LoadErr::Place { base } => named(&mut line, b"load Place ", *base),
        LoadErr::Import { index } => named(&mut line, b"load Import ", *index),
        LoadErr::Entry { rva } => named(&mut line, b"load Entry ", *rva),
        LoadErr::Names { row } => named(&mut line, b"load Names ", *row),
        LoadErr::Memory => line.text(b"no memory"),
    }
    line
}

/// A text without a number.
fn plain(text: &[u8]) -> Line
    requires { length text.now ≤ 63 }
    ensures value { result ≡ text.now }
    ensures len { length result ≤ 63 }
{
    let mut line = Line::new();
    line.text(text);
    line
}

/// The text of a refusal, without its line feed.
fn refusal_text(refusal: &Refusal) -> Line
    ensures value { result ≡ refusal_text refusal.now }
    ensures len { length result ≤ 63 }
{
    match refusal {
        Refusal::Usage => plain(b"usage"),
        Refusal::ReadFault => plain(b"read fault"),
        Refusal::TooLong { limit } => {
            let mut line = Line::new();
            named(&mut line, b"too long ", *limit);
            line
        }
        Refusal::Text(error) => text_line(error),
        Refusal::Image(error) => image_text(error),
        Refusal::Load(error) => load_text(error),
        Refusal::WriteFault => plain(b"write fault"),
        Refusal::NoMemory => plain(b"no memory"),
    }
}

/// Writes a refusal's line, and gives the status: that of a write fault where the line can't be
/// written.
pub fn report<E: Sink>(err: &mut E, refusal: &Refusal) -> Status
    ensures { Reported (Err refusal.now) (stream E.taken E.faults err.old)
        (stream E.taken E.faults err.new) result }
{
    let mut line = refusal_text(refusal);
    line.end();
    match put_all(err, line.as_bytes()) {
        Ok(()) => refusal.status(),
        Err(_) => Status::WriteFault,
    }
}
