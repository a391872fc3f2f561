//! What waits for a result, and what is done next.

use crate::place::{AskedPlace, Exception, Place};
use crate::task::{ForLoop, Task};
use c_checked::expression::{Access, Conversion, Expr, Fixity, Lvalue, Node};
use c_checked::function::DataPart;
use c_checked::statement::{Declared, Filter, StackedVariable, Stmt};
use c_operations::built_in::BuiltIn;
use c_operations::operation::{Operation, Pure};
use source_meaning::ended::Ended;

/// What is called.
#[derive(Clone, Copy, Drop)]
pub enum Callee {
    /// A function by its index in the program.
    Defined(u64),
    BuiltIn(BuiltIn),
}

/// `target operation= value`.
#[derive(Clone, Copy, Drop)]
pub struct Compound<'p> {
    /// The place that is changed.
    pub target: &'p Lvalue,
    /// The conversion of the old value to the type in which the operation works.
    pub before: Conversion,
    /// The operation on the converted old value and the right operand.
    pub operation: Operation,
    /// The right operand, with its conversion.
    pub value: &'p Box<Expr>,
    /// The conversion of the result to the type of the place.
    pub after: Conversion,
}

/// `++` and `--`.
#[derive(Clone, Copy, Drop)]
pub struct Stepped<'p> {
    /// Whether the expression's value is the new one, as of `++x`, or the old one.
    pub fixity: Fixity,
    /// The place that is changed.
    pub target: &'p Lvalue,
    /// The conversion of the old value to the type in which the operation works.
    pub before: Conversion,
    /// An addition or a subtraction of the amount.
    pub operation: Operation,
    /// 1, or of a pointer the size in bytes of what it points to.
    pub amount: u64,
    /// The conversion of the new value to the type of the place.
    pub after: Conversion,
}

/// What waits for an operand's value, without the arguments of a call.
#[derive(Clone, Copy, Drop)]
pub enum OperandFrame<'p> {
    Converts(Conversion),
    EvaluatesIndex(&'p Box<Expr>, Place),
    AddsIndex(u64),
    Applies(Pure),
    EvaluatesRight(Operation, &'p Box<Expr>, Place),
    Operates(Operation, u64, Place),
    /// The size of what the pointers point to, and the pointer that is subtracted.
    EvaluatesSubtrahend(u64, &'p Box<Expr>, Place),
    Measures(u64, u64),
    Inverts,
    EvaluatesIfTrue(&'p Box<Expr>, Place),
    EvaluatesIfFalse(&'p Box<Expr>, Place),
    Tests,
    Chooses(&'p Box<Expr>, &'p Box<Expr>, Place),
    Discards(&'p Box<Expr>, Place),
}

/// What waits for a place's address, or for a value on its way from or to a place.
#[derive(Clone, Copy, Drop)]
pub enum AssignmentFrame<'p> {
    ReadsPlace(&'p Lvalue, Place),
    Extends(Access),
    EvaluatesAssigned(&'p Lvalue, &'p Box<Expr>, Place),
    Assigns(&'p Lvalue, u64, Place),
    ReadsCompound(Compound<'p>, Place),
    EvaluatesCompound(Compound<'p>, u64, Place),
    OperatesCompound(Compound<'p>, u64, u64, Place),
    AssignsCompound(Compound<'p>, u64, Place),
    ReadsStepped(Stepped<'p>, Place),
    OperatesStepped(Stepped<'p>, u64, Place),
    AssignsStepped(Stepped<'p>, u64, u64, Place),
    GivesStepped(Fixity, u64),
}

/// What is done with an iteration of `for` or `while`.
#[derive(Clone, Copy)]
pub enum ForPart {
    Begins,
    Tests,
}

/// Whether a task's step was counted.
#[derive(Clone, Copy)]
pub enum Phase {
    Before,
    After,
}

/// What waits for a value in a statement, or for an answer of a filter or a vectored handler.
#[derive(Clone, Copy, Drop)]
pub enum StatementFrame<'p> {
    Initialises(u64, Place),
    InitialisesStacked(&'p StackedVariable, Place),
    EndsEvaluation,
    /// The statement where the condition isn't 0, and the one where it is.
    Branches(&'p Box<Stmt>, Option<&'p Box<Stmt>>, Place),
    /// An iteration begins, or its condition is tested.
    For(ForPart, ForLoop<'p>, Place),
    TestsDo(&'p Box<Stmt>, &'p Expr, Place),
    Returns,
    EndsFilter,
    /// The handler's number among the machine's.
    IsAnswered(usize, Exception, Place),
    /// A vectored handler's answer.
    EndsVectored(AskedPlace, Exception, Place),
}

/// What a part of a program comes to, where the program doesn't end there.
#[derive(Clone, Copy)]
pub enum Completion {
    Value(u64),
    Normal,
    Returned(u64),
    Broke,
    Continued,
    LeftTry,
    /// An exception on its way to a handler, which is named by the number of handlers outside it.
    Target(usize, Exception),
}

/// What waits for a normal end.
#[derive(Clone, Copy, Drop)]
pub enum SequelFrame<'p> {
    /// The statements, and the index of the next.
    Continues(&'p Vec<Stmt>, usize, Place),
    DeclaresRest(&'p Vec<Declared>, usize, Place),
    EvaluatesFirst(&'p Option<Expr>, ForLoop<'p>, Place),
    Retries(Operation, u64, u64, Place),
    GivesZero,
    GivesResult(Completion),
    EndsFinally,
}

/// What waits for the end of a loop's body.
#[derive(Clone, Copy, Drop)]
pub enum BodyFrame<'p> {
    EndsForBody(ForLoop<'p>, Place),
    EndsDoBody(&'p Box<Stmt>, &'p Expr, Place),
}

/// What waits for a result, and holds no values of arguments.
#[derive(Clone, Copy, Drop)]
pub enum Waiting<'p> {
    Operand(OperandFrame<'p>),
    Assignment(AssignmentFrame<'p>),
    Statement(StatementFrame<'p>),
    Sequel(SequelFrame<'p>),
    Body(BodyFrame<'p>),
    /// The end of a call: how many activations there were before it, its function's surplus, and
    /// what its activation has of the data stack.
    EndsCall(usize, u64, Option<DataPart>),
    /// The end of a `__try` with an `__except`, whose handler is the machine's last: what was held
    /// where it was entered, and its block.
    Lands(u64, &'p Vec<Stmt>, Place),
    /// The end of a `__try` with a `__finally`.
    Finishes(u32, &'p Vec<Stmt>, Place),
}

/// What waits for a result.
#[derive(Drop)]
pub enum ContinuationFrame<'p> {
    Waits(Waiting<'p>),
    /// The arguments that were evaluated, and the index of the next.
    PassesArgument(Callee, Vec<u64>, &'p Vec<Expr>, usize, Place),
}

/// How a run ended.
#[derive(Clone, Copy, Drop)]
pub enum Finish {
    Gave(Completion),
    Ended(Ended),
    /// No step was left.
    OutOfSteps,
}

/// What is done with what stands on the data stack.
#[derive(Clone, Copy, Drop)]
pub enum StackAction<'p> {
    /// The address of what stands so many bytes above the base that a local keeps is given.
    Find { base: u64, offset: u64 },
    /// A variable takes a number.
    Put(&'p StackedVariable, u64),
    /// So many elements of an array become 0, the last one first.
    Clear(&'p StackedVariable, u64),
}

/// What is done with vectored handlers.
#[derive(Clone, Copy, Drop)]
pub enum VectoredAction {
    /// Those from a place of their list on are asked.
    AskFrom(u64),
    /// One has given an answer.
    Answered {
        /// Its answer, an `int` in the low 32 bits.
        answer: u64,
        /// Its place in their list.
        asked: AskedPlace,
    },
}

/// What is to be done next, other than to pass arguments.
#[derive(Clone, Copy, Drop)]
pub enum Action<'p> {
    /// The run is over.
    Over(Finish),
    Give(Completion),
    /// A task, before or after its step.
    Do(Phase, Task<'p>, Place),
    Evaluate(&'p Node, Place),
    Find(&'p Lvalue, Place),
    Fetch(&'p Lvalue, u64, Place),
    Put(&'p Lvalue, u64, u64, Place),
    Operate(Operation, u64, u64, Place),
    /// Statements, or declared names, from an index on.
    Proceed(&'p Vec<Stmt>, usize, Place),
    DeclareEach(&'p Vec<Declared>, usize, Place),
    DeclareName(&'p Declared, Place),
    SetLocal(u64, u64, Place),
    OnStack(StackAction<'p>, Place),
    /// A `__try` with an `__except` is entered.
    Guard(&'p Vec<Stmt>, &'p Filter, &'p Vec<Stmt>, Place),
    /// A filter's answer.
    Answer(u64),
    /// The end of a `__finally` block.
    LetGo,
    /// What is done with vectored handlers, about an exception.
    OfVectored(VectoredAction, Exception, Place),
    /// The handlers below this number are asked, the highest first.
    Search(usize, Exception, Place),
}

/// What is to be done next.
#[derive(Drop)]
pub enum Next<'p> {
    Does(Action<'p>),
    /// Arguments from an index on, after those that were evaluated.
    Pass(Callee, Vec<u64>, &'p Vec<Expr>, usize, Place),
    Call(Callee, Vec<u64>, Place),
}

/// What is done next, maybe with one more frame on the stack.
#[derive(Drop)]
pub struct Plan<'p> {
    /// The frame that is put on the stack first, or None.
    pub pushed: Option<ContinuationFrame<'p>>,
    /// What is done then.
    pub next: Next<'p>,
}
