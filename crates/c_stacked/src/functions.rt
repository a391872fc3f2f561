//! Functions with their variables where these stand.

ghost use Rattle.std.specs.Prelude.{◌≡◌, ◌++◌, IfOk, map, option_map};
ghost use Rattle.c_checked.specs.Program.{data_frame_of};
ghost use Rattle.c_checked.specs.Statement as statements;
ghost use Rattle.c_resolved.specs.Layout as spec;
ghost use Rattle.c_stacked.specs.Functions.{layout_in, IsPlaced};
ghost use Rattle.c_stacked.specs.Views.{layout};

use crate::layout::{Layout, data_frame, layout_of};
use crate::placed_statements::place_statements;
use c_checked::function::DataFrame;
use c_checked::statement::Stmt;
use c_operations::operation::Size;
use c_resolved::variable::Variable;
use std::alloc::{AllocError, Global};

/// A function's locals, its part of the data stack and its body.
#[derive(Drop)]
pub struct Placed {
    /// The sizes of its locals, also of the one that has the base.
    pub locals: Vec<Size>,
    /// Its part of the data stack, if it has one.
    pub data_frame: Option<DataFrame>,
    /// The statements of its block.
    pub body: Vec<Stmt>,
}

/// The locals, and one for the base.
fn with_base(places: &Layout, locals: Vec<Size>) -> Result<Vec<Size>, AllocError>
    ensures { IfOk result (λ sizes. sizes.items ≡
        locals.items ++ spec.base_local (layout places.now)) }
{
    let mut locals = locals;
    if places.needed {
        locals.push(Size::Long)?;
    }
    Ok(locals)
}

/// A function of so many parameters with its variables where these stand.
pub fn place(
    alloc: Global,
    parameters: usize,
    locals: Vec<Size>,
    variables: Vec<Variable>,
    body: Vec<Stmt>,
) -> Result<Placed, AllocError>
    ensures { IfOk result (IsPlaced parameters locals.items
        (layout_in variables.items (map statements.statement body.items))
        (map statements.statement body.items)) }
{
    let mut body = body;
    let places = layout_of(alloc, &variables, &body)?;
    place_statements(&places, &mut body);
    Ok(Placed {
        locals: with_base(&places, locals)?,
        data_frame: data_frame(alloc, parameters, &places)?,
        body,
    })
}
