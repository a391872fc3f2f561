ghost use Rattle.std.specs.Prelude.{◌≡◌, ◌+◌, ◌*◌, ◌/◌, ◌%◌, ◌<◌, ◌≤◌, ◌^◌, ◌||◌, ℕ, true, All, IfOk, OnOk, length, slice_index};
ghost use Rattle.flat_memory.specs.Memory.{Memory, may_write, rights_asked};
ghost use Rattle.x64_memory.specs.Pages.{HasArena, has_page, paged, page_with_number};
ghost use Rattle.x64_memory.specs.Regions.{IsWholeRegion, HoldsArena, covers, filled, in_regions, mapped, with_region};
ghost use Rattle.x64_replay.specs.PageTrees.{pages_of};

use flat_memory::access::RefusedAccess;
use flat_memory::protection::{Protection, Rights, UNMAPPED};
use host_layout::range::{ARENA_END, ARENA_START, PAGE};
use seh_num::size::LONGEST_INSTRUCTION;
use seh_num::width::Width;
use std::alloc::{AllocError, Global};
use std::collections::BTreeMap;
use x64_memory::page::Page;
use x64_memory::paged::{self, Paged, ReadPages};
use x64_memory::region::Region;
use x64_memory::space::{AddressSpace, CodeSpace, ReadSpace};

/// Memory in an ordered map from the numbers of pages to the pages, which has those of the arena. A
/// page's number is its address divided by 4,096.
#[derive(Drop)]
pub struct MapSpace {
    pages: BTreeMap<u64, Page>,
    ghost arena: { HasArena (pages_of pages) },
}

/// Writes so many low bytes of a number into a page, the lowest first.
fn put_bytes(bytes: &mut [u8], from: usize, count: usize, value: u64)
    requires few { count ≤ 8 }
    requires within { from + count ≤ length bytes.old }
    ensures { (i : ℕ) → slice_index bytes.new i ≡ page_with_number bytes.old from count value i }
{
    let mut rest = value;
    for i in 0..count {
        bytes[from + i] = (rest % 256) as u8;
        rest /= 256;
    }
}

/// Maps a region over what was there before.
fn map_region(pages: &mut BTreeMap<u64, Page>, region: &Region) -> Result<(), AllocError>
    requires { IsWholeRegion region.now }
    ensures memory { OnOk result
        (paged (pages_of pages.new) ≡ with_region (paged (pages_of pages.old)) region.now) }
    ensures holds { OnOk result ((a : ℕ) → has_page (pages_of pages.new) a
        ≡ (covers region.now a || has_page (pages_of pages.old) a)) }
{
    for number in region.start / PAGE..region.end / PAGE {
        let page = Page {
            protection: region.protection(),
            bytes: [0; PAGE as usize],
        };
        pages.insert(number, page)?;
    }
    Ok(())
}

impl MapSpace {
    ghost use Rattle.x64_replay.specs.MapSpaces.{memory_of, holds};

    /// Memory in which the regions are mapped, a later one over those before it, each with its
    /// protection, and all bytes are 0. Only the system's memory can be wanting.
    pub fn new(alloc: Global, regions: &[Region]) -> Result<MapSpace, AllocError>
        requires whole { All IsWholeRegion regions.now }
        requires arena { HoldsArena regions.now }
        ensures memory { IfOk result (λ s. memory_of s ≡ mapped regions.now) }
        ensures holds { IfOk result (λ s. (a : ℕ) → holds s a ≡ in_regions regions.now a) }
    {
        let mut pages = BTreeMap::new(alloc);
        for region in regions {
            map_region(&mut pages, region)?;
        }
        Ok(MapSpace { pages })
    }

    /// Puts bytes into one page, whatever its protection.
    fn fill_page(&mut self, at: u64, piece: &[u8])
        requires within { at % PAGE + length piece.now ≤ PAGE }
        requires there { holds self.old at ≡ true }
        ensures memory { memory_of self.new ≡ filled (memory_of self.old) at piece.now }
        ensures holds { (a : ℕ) → holds self.new a ≡ holds self.old a }
    {
        if let Some(page) = self.pages.get_mut(&(at / PAGE)) {
            let from = (at % PAGE) as usize;
            page.bytes[from..from + piece.len()].copy_from_slice(piece);
        }
    }

    /// Puts bytes at an address, whatever the protection there, and changes nothing else. The bytes
    /// lie in mapped regions.
    pub fn fill(&mut self, at: u64, piece: &[u8])
        requires room { at + length piece.now < 2 ^ 64 }
        requires there { (a : ℕ) → at ≤ a → a < at + length piece.now → holds self.old a ≡ true }
        ensures memory { memory_of self.new ≡ filled (memory_of self.old) at piece.now }
        ensures holds { (a : ℕ) → holds self.new a ≡ holds self.old a }
    {
        let mut here = at;
        let mut rest = piece;
        while !rest.is_empty() {
            let count = rest.len().min((PAGE - here % PAGE) as usize);
            let (first, others) = rest.split_at(count);
            self.fill_page(here, first);
            here += count as u64;
            rest = others;
        }
    }

    /// Whether the byte at an address may be written.
    fn is_writable(&self, at: u64) -> bool
        ensures { result ≡ may_write (memory_of self.now) at }
    {
        match self.pages.get(&(at / PAGE)) {
            None => false,
            Some(page) => page.protection.rights.is_writable(),
        }
    }
}

impl ReadPages for MapSpace {
    ghost memory = { λ s. paged (pages_of s.pages) };

    fn rest_of_page(&self, at: u64) -> (Protection, &[u8]) {
        match self.pages.get(&(at / PAGE)) {
            None => (UNMAPPED, &[]),
            Some(page) => (page.protection, &page.bytes[(at % PAGE) as usize..]),
        }
    }
}

impl Paged for MapSpace {
    fn put(&mut self, at: u64, width: Width, value: u64) {
        if let Some(page) = self.pages.get_mut(&(at / PAGE)) {
            let count = width.bytes() as usize;
            put_bytes(&mut page.bytes, (at % PAGE) as usize, count, value);
        }
    }

    fn put_if(&mut self, at: u64, width: Width, value: u64) -> bool {
        if at % PAGE + width.bytes() > PAGE || !self.is_writable(at) {
            return false;
        }
        self.put(at, width, value);
        true
    }
}

impl CodeSpace for MapSpace {
    ghost memory = { λ s. paged (pages_of s.pages) };

    fn fetch(&self, at: u64, into: &mut [u8; LONGEST_INSTRUCTION]) -> usize {
        paged::fetch(self, at, into)
    }
}

impl ReadSpace for MapSpace {
    fn load(&self, at: u64, width: Width) -> Result<u64, RefusedAccess> {
        paged::load(self, at, width)
    }
}

impl AddressSpace for MapSpace {
    fn may_store(&self, at: u64, width: Width) -> Result<(), RefusedAccess> {
        paged::may_store(self, at, width)
    }

    fn store(&mut self, at: u64, width: Width, value: u64) -> Result<(), RefusedAccess> {
        paged::store(self, at, width, value)
    }

    fn protect(&mut self, at: u64, protection: i32) -> bool {
        let Some(rights) = asked(at, protection) else {
            return false;
        };
        if let Some(page) = self.pages.get_mut(&(at / PAGE)) {
            page.protection.rights = rights;
        }
        true
    }
}

/// The rights that a call of `protect` sets: none outside the arena.
fn asked(at: u64, protection: i32) -> Option<Rights>
    ensures { result ≡ rights_asked at protection }
{
    if at < ARENA_START || ARENA_END <= at {
        return None;
    }
    Rights::of_number(protection)
}
