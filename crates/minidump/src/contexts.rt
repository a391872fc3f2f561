//! The registers of a thread.

ghost use Rattle.std.specs.Prelude.{◌≡◌, ◌≤◌, ◌+◌, length};
ghost use Rattle.minidump.specs.Contexts as spec;
ghost use Rattle.minidump.specs.Lists.{words};

use crate::dump::Minidump;
use crate::layout::{
    CONTEXT_AMD64, CONTEXT_FLAGS, CONTEXT_SIZE, E_FLAGS, MX_CSR, RAX, REGISTER_COUNT, RIP, XMM0,
};
use crate::refusal::DumpErr;
use crate::structures::{Context, Location, M128A};
use pe_image::fields::{u32_at, u64_at};

impl M128A {
    fn read(bytes: &[u8], at: usize) -> M128A
        requires { at + 16 ≤ length bytes.now }
        ensures { result ≡ spec.m128a_at bytes.now at }
    {
        M128A {
            low: u64_at(bytes, at),
            high: u64_at(bytes, at + 8),
        }
    }
}

/// The sixteen integer registers.
fn integer(bytes: &[u8], at: usize) -> [u64; REGISTER_COUNT]
    requires { at + 128 ≤ length bytes.now }
    ensures { result ≡ words bytes.now at 0 REGISTER_COUNT }
{
    [
        u64_at(bytes, at),
        u64_at(bytes, at + 8),
        u64_at(bytes, at + 16),
        u64_at(bytes, at + 24),
        u64_at(bytes, at + 32),
        u64_at(bytes, at + 40),
        u64_at(bytes, at + 48),
        u64_at(bytes, at + 56),
        u64_at(bytes, at + 64),
        u64_at(bytes, at + 72),
        u64_at(bytes, at + 80),
        u64_at(bytes, at + 88),
        u64_at(bytes, at + 96),
        u64_at(bytes, at + 104),
        u64_at(bytes, at + 112),
        u64_at(bytes, at + 120),
    ]
}

/// The sixteen XMM registers.
fn xmm(bytes: &[u8], at: usize) -> [M128A; REGISTER_COUNT]
    requires { at + 256 ≤ length bytes.now }
    ensures { result ≡ spec.m128as bytes.now at 0 REGISTER_COUNT }
{
    [
        M128A::read(bytes, at),
        M128A::read(bytes, at + 16),
        M128A::read(bytes, at + 32),
        M128A::read(bytes, at + 48),
        M128A::read(bytes, at + 64),
        M128A::read(bytes, at + 80),
        M128A::read(bytes, at + 96),
        M128A::read(bytes, at + 112),
        M128A::read(bytes, at + 128),
        M128A::read(bytes, at + 144),
        M128A::read(bytes, at + 160),
        M128A::read(bytes, at + 176),
        M128A::read(bytes, at + 192),
        M128A::read(bytes, at + 208),
        M128A::read(bytes, at + 224),
        M128A::read(bytes, at + 240),
    ]
}

impl Context {
    fn read(bytes: &[u8], at: usize) -> Context
        requires { at + CONTEXT_SIZE ≤ length bytes.now }
        ensures { result ≡ spec.context_at bytes.now at }
    {
        Context {
            context_flags: u32_at(bytes, at + CONTEXT_FLAGS),
            mx_csr: u32_at(bytes, at + MX_CSR),
            e_flags: u32_at(bytes, at + E_FLAGS),
            integer: integer(bytes, at + RAX),
            rip: u64_at(bytes, at + RIP),
            xmm: xmm(bytes, at + XMM0),
        }
    }
}

impl<'a> Minidump<'a> {
    /// The context at a location: it has all bytes of a CONTEXT for x64, which lie in the file, and
    /// its flags say that it is one.
    pub fn context(&self, location: Location) -> Result<Context, DumpErr>
        ensures { result ≡ spec.context self.now location }
    {
        let size = location.size as u64;
        if size < CONTEXT_SIZE {
            return Err(DumpErr::ContextShort { size });
        }
        if !self.has_location(location) {
            let at = location.rva as u64;
            return Err(DumpErr::ContextTruncated { at });
        }
        let at = location.rva as usize;
        let flags = u32_at(self.file(), at + CONTEXT_FLAGS);
        if flags & CONTEXT_AMD64 == 0 {
            let flags = flags as u64;
            return Err(DumpErr::ContextKind { flags });
        }
        Ok(Context::read(self.file(), at))
    }
}
