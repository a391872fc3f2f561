//! Lengths of arrays (C11, 6.7.6.2).

ghost use Rattle.c_expressions.specs.Kept.{AddsFaults};
ghost use Rattle.c_resolved.specs.Statements as definitions;

use c_expressions::least::LeastFault;
use c_expressions::values::unless_holds;
use c_resolved::fault::Fault;
use c_syntax::declaration::Length;

/// An array has an element or more.
pub fn check_length(faults: &mut LeastFault, length: Option<Length>)
    ensures { AddsFaults faults.old faults.new (definitions.length_faults length) }
{
    if let Some(length) = length {
        unless_holds(faults, 0 < length.value, length.at, Fault::TypeClash);
    }
}
