//! Where an expression is, and what a name means there.

ghost use Rattle.std.specs.Prelude.{◌≡◌, option_map};
ghost use Rattle.c_expressions.specs.Views.{entity, names_of};

use crate::scopes::{Entity, meaning, spelled};
use crate::symbol_table::SymbolTable;
use c_syntax::expression::Identifier;

/// Where an expression is: the text and the names there, and whether the exception's code, its
/// record and AbnormalTermination mean something.
#[derive(Clone, Copy)]
pub struct Context<'t, 's> {
    /// The program's text.
    pub text: &'t [u8],
    /// The names of the blocks around it and of the file.
    pub names: &'s SymbolTable<'t>,
    /// Whether GetExceptionCode means something: in a filter and in the block of an `__except`.
    pub code: bool,
    /// Whether GetExceptionInformation means something: in a filter alone.
    pub information: bool,
    /// Whether AbnormalTermination means something: in a `__finally` block.
    pub abnormal: bool,
}

/// What a name means there.
pub fn named<'t>(context: &Context<'t, '_>, name: Identifier) -> Option<Entity<'t>>
    ensures { option_map entity result ≡ (names_of context.now).entity name }
{
    meaning(spelled(context.text, name), context.names)
}
