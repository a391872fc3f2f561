//! What holds of templates wherever they are placed.

ghost use Rattle.x64_templates.specs.Laws.{OperationsRun, BodiesRun, BodiesFault, FaultsAreRetried, CallsBegin, ProloguesMakeFrames, ArgumentsAreKept, EpiloguesLeaveFrames, BodiesReturn, TemplatesHaveNoEpilogue};
ghost use Rattle.x64_templates.specs.Locals.{LocalsAreFetched, LocalsAreKept};

/// The code of a body does what its linear code means. Where an instruction faults, the machine's
/// faults with its operands in registers, and the operation can be made again from there.
pub fn bodies_run()
    ensures operations { OperationsRun }
    ensures bodies { BodiesRun }
    ensures faults { BodiesFault }
    ensures retries { FaultsAreRetried }
{}

/// A call comes to its callee with arguments and return address, a prologue makes the frame of its
/// plan, a function begins with its arguments in its locals, and a return leaves its number in RAX.
pub fn calls_pass_arguments()
    ensures calls { CallsBegin }
    ensures entries { ProloguesMakeFrames }
    ensures arguments { ArgumentsAreKept }
    ensures epilogues { EpiloguesLeaveFrames }
    ensures returns { BodiesReturn }
{}

/// A local in a register is fetched and kept by one move, which changes nothing else.
pub fn locals_move()
    ensures fetched { LocalsAreFetched }
    ensures kept { LocalsAreKept }
{}

/// No epilogue begins inside a template.
pub fn templates_have_no_epilogue()
    ensures { TemplatesHaveNoEpilogue }
{}
