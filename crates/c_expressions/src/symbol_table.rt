//! The names of all open blocks and of the file.

ghost use Rattle.std.specs.Prelude.{◌≡◌, [], ◌∷◌, length, true, OnErr, OnOk, option_map};
ghost use Rattle.std.specs.Prelude.{is_some as is_there};
ghost use Rattle.c_expressions.specs.Declarations.{Uncovers, innermost_of, with_innermost};
ghost use Rattle.c_expressions.specs.Entities.{entity};
ghost use Rattle.c_expressions.specs.SymbolTables.{closed, opened, scopes_of, with_block};
ghost use Rattle.c_expressions.specs.TextHashers.{hasher_of};
ghost use Rattle.c_resolved.specs.Scopes.{meaning_in};
ghost use Rattle.c_resolved.specs.Statements.{is_some};
ghost use Rattle.indexmap.specs.IndexMap as maps;

use crate::scopes::Entity;
use crate::text_hasher::TextHasher;
use indexmap::IndexMap;
use std::alloc::{AllocError, Global};
use std::marker::Model;
use std::mem;

/// The innermost declaration of a name.
#[derive(Clone, Copy, Drop)]
struct Innermost<'t> {
    /// How many blocks are around the one that declares it.
    depth: usize,
    /// What it is declared as.
    meaning: Entity<'t>,
}

/// A name that a block declares.
#[derive(Clone, Copy, Drop)]
struct Declaration<'t> {
    name: &'t [u8],
    meaning: Entity<'t>,
    /// The declaration that it hides.
    hidden: Option<Innermost<'t>>,
}

/// The innermost declaration of each name, in the order of the first declarations; none where a
/// name's blocks have ended.
type Index<'t> = IndexMap<&'t [u8], Option<Innermost<'t>>, TextHasher>;

/// How many blocks there are.
fn depth_of(blocks: &Vec<Vec<Declaration<'_>>>) -> usize
    ensures { result ≡ length blocks.now.items }
{
    blocks.len()
}

/// The innermost declaration of a name.
fn innermost_of<'t>(index: &Index<'t>, name: &[u8]) -> Option<Innermost<'t>>
    ensures { result ≡ innermost_of index.now.entries name.now }
{
    match index.get(name) {
        Some(found) => *found,
        None => None,
    }
}

/// A name's declaration, in the place of the innermost one before.
fn set_innermost<'t>(index: &mut Index<'t>, name: &'t [u8], found: Option<Innermost<'t>>)
    ensures sets { is_there (innermost_of index.old.entries name.now) ≡ true →
        index.new.entries ≡ with_innermost index.old.entries name.entry found.entry }
    ensures hasher { maps.hasher_of index.new ≡ maps.hasher_of index.old }
{
    drop(index.insert(name, found));
}

/// What the declarations of a block hide is innermost again.
fn uncover<'t>(index: &mut Index<'t>, block: Vec<Declaration<'t>>)
    ensures uncovers { Uncovers index.old.entries index.new.entries block.entry.items [] }
    ensures hasher { maps.hasher_of index.new ≡ maps.hasher_of index.old }
{
    let mut left = block;
    while let Some(last) = left.pop() {
        set_innermost(index, last.name, last.hidden);
    }
}

/// The names of all open blocks, in the order of their declarations, with what each means. What a
/// name means in the innermost block is found by one look-up, however many blocks are around it: a
/// declaration knows which one it hides, and gives it back when its block ends.
#[derive(Drop)]
pub struct SymbolTable<'t> {
    index: Index<'t>,
    /// The declarations of the innermost block.
    block: Vec<Declaration<'t>>,
    /// Those of the blocks around it, the file first.
    around: Vec<Vec<Declaration<'t>>>,
}

impl<'t> Model for SymbolTable<'t> {
    ghost use Rattle.std.specs.Prelude.{◌∷◌, map};
    ghost use Rattle.c_expressions.specs.Declarations.{AreInnermost, latest, latest_blocks, scope};
    ghost use Rattle.c_expressions.specs.SymbolTables.{SymbolTable};
    ghost use Rattle.indexmap.specs.IndexMap as maps;

    ghost Value = { SymbolTable };

    ghost view = { λ t. record {
      block = scope (latest t.block.items);
      around = map scope (latest_blocks t.around.items);
      hasher = maps.hasher_of t.index;
    } };

    ghost invariant = { λ t. AreInnermost t.index.entries
        (latest t.block.items ∷ latest_blocks t.around.items) };
}

impl<'t> SymbolTable<'t> {
    /// No names of the file yet, whose text this is: they are hashed as what follows it.
    pub fn new(alloc: Global, text: &[u8]) -> SymbolTable<'t>
        ensures { result ≡ record { block = []; around = []; hasher = hasher_of text.now } }
    {
        SymbolTable {
            index: IndexMap::with_hasher(alloc, TextHasher::new(text)),
            block: Vec::new(alloc),
            around: Vec::new(alloc),
        }
    }

    /// A block begins.
    pub fn open(&mut self, alloc: Global) -> Result<(), AllocError>
        ensures opened { OnOk result (self.new ≡ opened self.old) }
        ensures unchanged { OnErr result (self.new ≡ self.old) }
    {
        let outer = mem::replace(&mut self.block, Vec::new(alloc));
        match self.around.push(outer) {
            Ok(()) => Ok(()),
            Err(failed) => {
                self.block = failed.value;
                Err(AllocError)
            }
        }
    }

    /// The innermost block ends, and its names with it; the file has no end.
    pub fn close(&mut self)
        ensures { self.new ≡ closed self.old }
    {
        if let Some(outer) = self.around.pop() {
            let inner = mem::replace(&mut self.block, outer);
            uncover(&mut self.index, inner);
        }
    }

    /// What a name is declared as, the innermost block first.
    pub fn get(&self, name: &[u8]) -> Option<Entity<'t>>
        ensures { option_map entity result ≡ meaning_in (scopes_of self.now) name.now }
    {
        match innermost_of(&self.index, name) {
            Some(found) => Some(found.meaning),
            None => None,
        }
    }

    /// Whether the innermost block declares a name.
    pub fn is_declared(&self, name: &[u8]) -> bool
        ensures { result ≡ is_some (meaning_in self.now.block name.now) }
    {
        let depth = depth_of(&self.around);
        match innermost_of(&self.index, name) {
            Some(found) => found.depth == depth,
            None => false,
        }
    }

    /// A declaration in the innermost block, after the others. Where memory runs out it isn't
    /// there.
    pub fn insert(&mut self, name: &'t [u8], meaning: Entity<'t>) -> Result<(), AllocError>
        ensures inserted { OnOk result (self.new ≡ with_block self.old
            ((name.now, entity meaning.entry) ∷ self.old.block)) }
        ensures unchanged { OnErr result (self.new ≡ self.old) }
    {
        let hidden = innermost_of(&self.index, name);
        let depth = depth_of(&self.around);
        let before = self.block.len();
        self.block.push(Declaration {
            name,
            meaning,
            hidden,
        })?;
        match self.index.insert(name, Some(Innermost { depth, meaning })) {
            Ok(_) => Ok(()),
            Err(_) => {
                self.block.truncate(before);
                Err(AllocError)
            }
        }
    }
}
