ghost use Rattle.std.specs.Prelude.{◌≡◌, ◌+◌, ◌*◌, ◌/◌, ◌%◌, ◌<◌, ◌≤◌, ◌^◌, ◌++◌, ◌||◌, ℕ, true, All, IfOk, IfSome, OnOk, length, replicate, slice_index};
ghost use Rattle.seh_num.specs.Widths.{bytes_of};
ghost use Rattle.flat_memory.specs.Memory.{Memory, with_bytes, rights_asked};
ghost use Rattle.x64_memory.specs.Pages.{HasArena, has_page, paged, page_with_number, zero_page};
ghost use Rattle.x64_memory.specs.Regions.{AreAscending, IsWholeRegion, HoldsArena, covers, filled, in_regions, mapped, with_region};
ghost use Rattle.x64_memory.specs.Stretches.{AreOrdered, AreOrdered-prop, count_from, end_from, index_of, page_numbered};

use crate::page::Page;
use crate::paged::{self, Paged, ReadPages};
use crate::region::Region;
use crate::space::{AddressSpace, CodeSpace, ReadSpace};
use crate::stretch::{self, Stretch};
use flat_memory::access::RefusedAccess;
use flat_memory::protection::{Protection, Rights, UNMAPPED};
use host_layout::range::{ARENA_END, ARENA_START, PAGE, STACK_START};
use seh_num::size::LONGEST_INSTRUCTION;
use seh_num::width::Width;
use std::alloc::{AllocError, Global};

/// Memory in a table of stretches of pages, which holds those of the arena. A page is found by
/// halves among the stretches, but first in the stack's, and by its place in its stretch.
#[derive(Drop)]
pub struct PageMap {
    stretches: Vec<Stretch>,
    pages: Vec<Page>,
    likely: usize,
    ghost ordered: { AreOrdered 0 0 stretches.items } by { AreOrdered-prop 0 0 stretches.items },
    ghost count: { length pages.items ≡ count_from 0 stretches.items },
    ghost arena: { HasArena (page_numbered stretches.items pages.items) },
}

/// Writes so many low bytes of a number into a page, the lowest first.
#[inline(always)]
fn put_bytes(bytes: &mut [u8], from: usize, count: usize, value: u64)
    requires few { count ≤ 8 }
    requires within { from + count ≤ length bytes.old }
    ensures { (i : ℕ) → slice_index bytes.new i ≡ page_with_number bytes.old from count value i }
{
    let mut rest = value;
    for i in 0..count {
        bytes[from + i] = (rest % 256) as u8;
        rest /= 256;
    }
}

/// Writes the low 16 bits of a number into a page.
#[inline(never)]
fn put_word(bytes: &mut [u8], from: usize, value: u64)
    requires { from + 2 ≤ length bytes.old }
    ensures { (i : ℕ) → slice_index bytes.new i ≡ page_with_number bytes.old from 2 value i }
{
    put_bytes(bytes, from, 2, value);
}

/// Writes the low bytes of a number into a page. Where the count is known, one store is made of
/// them, as long as not all widths begin alike: words, the rarest, go by a call.
#[inline(always)]
fn put_number(bytes: &mut [u8], from: usize, width: Width, value: u64)
    requires { from + bytes_of width ≤ length bytes.old }
    ensures { (i : ℕ) → slice_index bytes.new i
        ≡ page_with_number bytes.old from (bytes_of width) value i }
{
    match width {
        Width::W8 => put_bytes(bytes, from, 1, value),
        Width::W16 => put_word(bytes, from, value),
        Width::W32 => put_bytes(bytes, from, 4, value),
        Width::W64 => put_bytes(bytes, from, 8, value),
    }
}

/// How many pages regions have, as far as that can be counted.
fn count_of_pages(regions: &[Region]) -> usize {
    let mut count: usize = 0;
    for region in regions {
        count = count.saturating_add(
            (region.end / PAGE).saturating_sub(region.start / PAGE) as usize,
        );
    }
    count
}

/// Which region is the stack, if one is.
fn place_of_stack(regions: &[Region]) -> usize {
    for i in 0..regions.len() {
        if regions[i].start == STACK_START {
            return i;
        }
    }
    0
}

/// Puts pages of zeros after others.
fn add_pages(pages: &mut Vec<Page>, count: u64, protection: Protection) -> Result<(), AllocError>
    ensures { OnOk result
        (pages.new.items ≡ pages.old.items ++ replicate count (zero_page protection)) }
{
    for _i in 0..count {
        pages.push(Page {
            protection,
            bytes: [0; PAGE as usize],
        })?;
    }
    Ok(())
}

/// Maps a region that begins with no lower address than where the last one ended.
fn map_region(
    stretches: &mut Vec<Stretch>,
    pages: &mut Vec<Page>,
    region: &Region,
) -> Result<(), AllocError>
    requires whole { IsWholeRegion region.now }
    requires ordered { AreOrdered 0 0 stretches.old.items }
    requires count { length pages.old.items ≡ count_from 0 stretches.old.items }
    requires above { PAGE * end_from 0 stretches.old.items ≤ region.now.start }
    ensures memory { OnOk result (paged (page_numbered stretches.new.items pages.new.items)
        ≡ with_region (paged (page_numbered stretches.old.items pages.old.items)) region.now) }
    ensures holds { OnOk result
        ((a : ℕ) → has_page (page_numbered stretches.new.items pages.new.items) a
        ≡ (covers region.now a || has_page (page_numbered stretches.old.items pages.old.items) a)) }
    ensures ordered { OnOk result (AreOrdered 0 0 stretches.new.items) }
    ensures count { OnOk result (length pages.new.items ≡ count_from 0 stretches.new.items) }
    ensures end { OnOk result (PAGE * end_from 0 stretches.new.items ≡ region.now.end) }
{
    let stretch = Stretch {
        first: region.start / PAGE,
        end: region.end / PAGE,
        index: pages.len(),
    };
    add_pages(pages, stretch.end - stretch.first, region.protection())?;
    stretches.push(stretch)?;
    Ok(())
}

impl PageMap {
    ghost use Rattle.x64_memory.specs.PageMaps.{memory_of, holds, pages_of};

    /// Memory in which the regions are mapped, each with its protection, and all bytes are 0. Only
    /// the system's memory can be wanting.
    pub fn new(alloc: Global, regions: &[Region]) -> Result<PageMap, AllocError>
        requires whole { All IsWholeRegion regions.now }
        requires ascending { AreAscending 0 regions.now }
        requires arena { HoldsArena regions.now }
        ensures memory { IfOk result (λ s. memory_of s ≡ mapped regions.now) }
        ensures holds { IfOk result (λ s. (a : ℕ) → holds s a ≡ in_regions regions.now a) }
    {
        let mut stretches = Vec::with_capacity(alloc, regions.len())?;
        let mut pages = Vec::with_capacity(alloc, count_of_pages(regions))?;
        for region in regions {
            map_region(&mut stretches, &mut pages, region)?;
        }
        Ok(PageMap {
            stretches,
            pages,
            likely: place_of_stack(regions),
        })
    }

    /// Where the page of an address is kept.
    #[inline(always)]
    fn index(&self, at: u64) -> Option<usize>
        ensures value { result ≡ index_of self.now.stretches.items (at / PAGE) }
        ensures within { IfSome result (λ i. i < length self.now.pages.items) }
    {
        stretch::likely_index_of(&self.stretches, self.likely, at / PAGE)
    }

    /// The byte at an address, whatever the protection there; 0 where nothing is mapped.
    pub fn byte(&self, at: u64) -> u8
        ensures { result ≡ (memory_of self.now).byte at }
    {
        match self.index(at) {
            None => 0,
            Some(index) => self.pages[index].bytes[(at % PAGE) as usize],
        }
    }

    /// Puts bytes into one page, whatever its protection.
    fn fill_page(&mut self, at: u64, piece: &[u8])
        requires within { at % PAGE + length piece.now ≤ PAGE }
        requires there { holds self.old at ≡ true }
        ensures memory { memory_of self.new ≡ filled (memory_of self.old) at piece.now }
        ensures holds { (a : ℕ) → holds self.new a ≡ holds self.old a }
    {
        if let Some(index) = self.index(at) {
            let page = &mut self.pages[index];
            let from = (at % PAGE) as usize;
            page.bytes[from..from + piece.len()].copy_from_slice(piece);
        }
    }

    /// Puts bytes at an address, whatever the protection there, and changes nothing else. The bytes
    /// lie in mapped regions.
    pub fn fill(&mut self, at: u64, piece: &[u8])
        requires room { at + length piece.now < 2 ^ 64 }
        requires there { (a : ℕ) → at ≤ a → a < at + length piece.now → holds self.old a ≡ true }
        ensures memory { memory_of self.new ≡ filled (memory_of self.old) at piece.now }
        ensures holds { (a : ℕ) → holds self.new a ≡ holds self.old a }
    {
        let mut here = at;
        let mut rest = piece;
        while !rest.is_empty() {
            let count = rest.len().min((PAGE - here % PAGE) as usize);
            let (first, others) = rest.split_at(count);
            self.fill_page(here, first);
            here += count as u64;
            rest = others;
        }
    }
}

impl ReadPages for PageMap {
    ghost memory = { λ s. paged (page_numbered s.stretches.items s.pages.items) };

    #[inline(always)]
    fn rest_of_page(&self, at: u64) -> (Protection, &[u8]) {
        match self.index(at) {
            None => (UNMAPPED, &[]),
            Some(index) => {
                let page = &self.pages[index];
                (page.protection, &page.bytes[(at % PAGE) as usize..])
            }
        }
    }
}

impl Paged for PageMap {
    fn put(&mut self, at: u64, width: Width, value: u64) {
        if let Some(index) = self.index(at) {
            let page = &mut self.pages[index];
            put_number(&mut page.bytes, (at % PAGE) as usize, width, value);
        }
    }

    #[inline(always)]
    fn put_if(&mut self, at: u64, width: Width, value: u64) -> bool {
        match self.index(at) {
            None => false,
            Some(index) => {
                let from = (at % PAGE) as usize;
                let count = width.bytes() as usize;
                let kept = &self.pages[index];
                let rest = &kept.bytes[from..];
                let writable = kept.protection.rights.is_writable();
                if !writable || rest.len() < count {
                    return false;
                }
                let page = &mut self.pages[index];
                put_number(&mut page.bytes, from, width, value);
                true
            }
        }
    }
}

impl CodeSpace for PageMap {
    ghost memory = { λ s. paged (page_numbered s.stretches.items s.pages.items) };

    fn fetch(&self, at: u64, into: &mut [u8; LONGEST_INSTRUCTION]) -> usize {
        paged::fetch(self, at, into)
    }
}

impl ReadSpace for PageMap {
    #[inline(always)]
    fn load(&self, at: u64, width: Width) -> Result<u64, RefusedAccess> {
        paged::load(self, at, width)
    }
}

impl AddressSpace for PageMap {
    #[inline(always)]
    fn may_store(&self, at: u64, width: Width) -> Result<(), RefusedAccess> {
        paged::may_store(self, at, width)
    }

    #[inline(always)]
    fn store(&mut self, at: u64, width: Width, value: u64) -> Result<(), RefusedAccess> {
        paged::store(self, at, width, value)
    }

    fn protect(&mut self, at: u64, protection: i32) -> bool {
        let Some(asked) = asked(at, protection) else {
            return false;
        };
        if let Some(index) = self.index(at) {
            self.pages[index].protection.rights = asked;
        }
        true
    }
}

/// The rights that a call of `protect` sets: none outside the arena.
fn asked(at: u64, protection: i32) -> Option<Rights>
    ensures { result ≡ rights_asked at protection }
{
    if at < ARENA_START || ARENA_END <= at {
        return None;
    }
    Rights::of_number(protection)
}
