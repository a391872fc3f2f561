//! What the commands come to together.

ghost use Rattle.seh.specs.Calls.{CompileIsComplete, RunIsComplete, MeaningIsComplete, ShowIsComplete, CheckIsComplete, ExecIsComplete, TextsHaveOneImage, LastLinesAgree, CompiledIsMeant, RunIsMeant};
ghost use Rattle.seh.specs.CheckLaws.{ImagesHaveOneVerdict, DoneIsYes, CheckedCallersAreFound};
ghost use Rattle.seh.specs.CompiledChecks.{CompiledImagesAreKept, CompiledVerdictsAreYes, CompiledIsKept};
ghost use Rattle.seh.specs.CompiledFrames.{CompiledEntriesAreFound, CompiledLeavesAreFound, CompiledCodeIsCovered, CompiledRoutinesAreFound};
ghost use Rattle.seh.specs.EntryCheckLaws.{EntryCheckIsComplete, EntriesHaveOneVerdictEach, StatusesAgree};
ghost use Rattle.seh.specs.EntryFrames.{YesLinesFindCallers, FirstNoIsOfCheck};
ghost use Rattle.seh.specs.Completeness.{AcceptedTextsCompile, CompiledImagesRun};
ghost use Rattle.seh.specs.Existence.{ImagesExist};
ghost use Rattle.seh.specs.FunctionNames.{NamesAreThere, OthersShowNoWalk};
ghost use Rattle.seh.specs.Headline.{Headline, NothingMore, Walks};
ghost use Rattle.seh.specs.PrintedWalk.{PrintedWalk};
ghost use Rattle.seh.specs.SelftestLaws.{SelftestReadsNothing, SelftestIsComplete, SelftestIsMeant};
ghost use Rattle.seh.specs.TamePrograms.{TameProgramsWalk, TameProgramsEnd};

/// The headline: where `compile` answered with an image for a text, each run of `exec` on it with
/// an argument from 0 to below 2^63 and at least `256 * n + 256` turns shows first what the text's
/// program shows within n steps. Where the program returns or dies of an exception within n steps,
/// the run has the same end, with its status, and its whole text is that of the program's meaning.
///
/// And nothing more: the events of a run are the first that the program shows within `(turns + 1) *
/// (8 * L + 256)` steps, with L the length of the text in bytes, and where it has ended the program
/// has ended so, as long as within these steps it touches no reserved byte and is never more than
/// 1,000 deep.
pub fn headline()
    ensures shows { Headline }
    ensures nothing_more { NothingMore }
{}

/// The printed walk: where the run of which the meaning speaks comes to a call of `walk` within n
/// steps, the text of the image's run, with turns enough, has after the lines of what was shown
/// until then a line with the name of each live activation's function, innermost first: also in
/// filters and in `__finally` blocks, and where an unwinding has left others.
pub fn printed_walk()
    ensures { PrintedWalk }
{}

/// The names of functions, by what the text says. Where a function of the text names `walk`, in an
/// expression of a statement, of a filter or of a `__finally` block, the image has for each number
/// the name of the function of that number, and no other names. Where none does, the program never
/// shows a line of a printed walk.
pub fn function_names()
    ensures there { NamesAreThere }
    ensures others { OthersShowNoWalk }
{}

/// Completeness: no accepted text is refused, and no image of one. What `compile` answers to an
/// accepted text is that its image was written, and what `exec` answers to such an image is the end
/// of its run; but for a fault of the sink and want of memory.
pub fn completeness()
    ensures compiles { AcceptedTextsCompile }
    ensures runs { CompiledImagesRun }
{}

/// Each accepted text of at most 1 MiB has an image: the bytes that its program's linear code is
/// linked to. That is said of the definitions alone, whatever memory there is. By `meant_calls` it
/// has no other.
pub fn images_exist()
    ensures { ImagesExist }
{}

/// At every turn of a run of the image, up to its end, the walk over the stack gives exactly the
/// shadow, a list that the machine's model keeps with no look at unwind codes: for each routine
/// that has not returned, innermost first, the return address, the stack pointer after the return
/// and the nonvolatile registers that its caller had at the call. It ends at RIP 0. This holds as
/// far as the headline's second sentence does.
pub fn walks()
    ensures shadow { Walks }
{}

/// Of a program that is Tame, which however long it runs touches no reserved byte and is never more
/// than 1,000 deep, this holds at every turn of its image's run, without a bound; and the run never
/// ends at the stack's limit or at a place where no turn can be made.
pub fn tame_programs()
    ensures walk { TameProgramsWalk }
    ensures end { TameProgramsEnd }
{}

/// Whole calls of the program, where no source and no sink has a fault and memory isn't wanting. An
/// accepted text gives an image under `compile`, the text of its run under `run`, and the text of
/// its meaning under `meaning`. An image gives its view under `show`, one whose function table is
/// read whole the line of its verdict under `check` and the text of its entries' verdicts under
/// `check --each`, and one that loads the text of its run under `exec`. Each has the status of its
/// end, and writes nothing to `err`.
pub fn calls()
    ensures compile { CompileIsComplete }
    ensures run { RunIsComplete }
    ensures meaning { MeaningIsComplete }
    ensures show { ShowIsComplete }
    ensures check { CheckIsComplete }
    ensures check_entries { EntryCheckIsComplete }
    ensures exec { ExecIsComplete }
{}

/// From a text to what is written, in two calls or in one. Where the program ends within n steps by
/// a return of `main` or an unhandled exception, `compile` and then `exec` of what it wrote, with
/// at least `256 * n + 256` turns, write the text of the meaning and have its status; so does
/// `run`. A text has one image at most, and the last lines of a run and of a meaning that end alike
/// are one.
pub fn meant_calls()
    ensures one_image { TextsHaveOneImage }
    ensures last_line { LastLinesAgree }
    ensures compiled { CompiledIsMeant }
    ensures run { RunIsMeant }
{}

/// What `check` says of an image. An image has one verdict. Where no stream has a fault and a call
/// ends with status 0, it is yes. Then, where the image's base is 4 GiB or more below 2^63, the
/// walk over the image at its base finds the caller in every state of each entry of its function
/// table: in the prologue, the body and the epilogues.
pub fn checked_images()
    ensures one_verdict { ImagesHaveOneVerdict }
    ensures done { DoneIsYes }
    ensures callers { CheckedCallersAreFound }
{}

/// `check` says yes to every image that `compile` writes. On the image of an accepted text the
/// verdict is yes and no other: its function table has an entry for each function and funclet with
/// a frame, and one for each cold part of these, and no rule fails in any of them. Where no stream
/// has a fault and memory isn't wanting, `check` of the bytes that `compile` wrote writes `yes N`,
/// with N the number of these entries, and ends with status 0.
pub fn compiled_images()
    ensures kept { CompiledImagesAreKept }
    ensures one_verdict { CompiledVerdictsAreYes }
    ensures calls { CompiledIsKept }
{}

/// The frames of an image that `compile` wrote, said of its bytes: of the ranges and the unwind
/// infos that its function table is read as, and of the instructions that its code is decoded to.
/// At each of these, in the prologue, the body, an epilogue or a cold part, the walk over the
/// loaded image finds the caller.
///
/// Each byte of code that no entry covers is in a routine without an entry: a leaf function, a
/// thunk, a name thunk or a stub of a vectored handler, or `__chkstk`. Such a routine begins where
/// uncovered code does, at the entry point, where a call leads, at the handler of a scope record,
/// or at an address that uncovered code takes; it ends at the next beginning, the next range or the
/// section's end. Decoded from where it begins, none of its instructions but a return or a jump out
/// of it writes RSP, and none another nonvolatile register. At each of these the walk finds the
/// caller of each state that has RSP, the return address and the nonvolatile registers of the
/// routine's first byte.
pub fn compiled_frames()
    ensures entries { CompiledEntriesAreFound }
    ensures leaves { CompiledLeavesAreFound }
    ensures outside { CompiledCodeIsCovered }
    ensures routines { CompiledRoutinesAreFound }
{}

/// What `check --each` says of an image: each entry of an image has one verdict, and so the image
/// has one text. Where no stream has a fault and memory isn't wanting, `check` and `check --each`
/// of the same bytes end with one status: that of yes where each entry is without a fault, that of
/// no where one isn't, and that of a refusal where the image or its function table is refused. The
/// first no of `check --each` is the one of `check`. Where each line of an entry's function is yes,
/// its own and those of all entries that are chained to it, and the image's base is at least 4 GiB
/// below 2^63, the walk over the loaded image finds the caller in every state of it, whatever other
/// lines say.
pub fn checked_entries()
    ensures one_verdict_each { EntriesHaveOneVerdictEach }
    ensures statuses { StatusesAgree }
    ensures first_no { FirstNoIsOfCheck }
    ensures callers { YesLinesFindCallers }
{}

/// What `selftest N` gives, where no sink has a fault and memory isn't wanting: where the text of
/// the generated program is accepted, the whole summary of the run of its image, with the status of
/// the run's end. Where the program ends within n steps by a return of `main` or an unhandled
/// exception, and `256 * n + 256` is at most 10,000,000, that is the summary of what it means, and
/// the status is the one of its end. Nothing is read.
pub fn selftest_calls()
    ensures unread { SelftestReadsNothing }
    ensures complete { SelftestIsComplete }
    ensures meant { SelftestIsMeant }
{}
