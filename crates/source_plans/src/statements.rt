//! What is done next for a statement.

ghost use Rattle.std.specs.Prelude.{◌≡◌, map, option_map};
ghost use Rattle.source_meaning.specs.Tasks as tasks;
ghost use Rattle.c_checked.specs.Expression as tree;
ghost use Rattle.c_checked.specs.Statement as trees;
ghost use Rattle.source_machine.specs.Frames as frames;
ghost use Rattle.source_machine.specs.Plans as plans;
ghost use Rattle.source_plans.specs.Views as views;
ghost use Rattle.source_plans.specs.Views.{place_of, plan_of};

use crate::expressions::{evaluates, push, start, then};
use crate::frame::{
    Action, BodyFrame, Completion, ContinuationFrame, ForPart, Next, Plan, SequelFrame,
    StatementFrame, Waiting,
};
use crate::place::Place;
use crate::task::{ForLoop, Task};
use c_checked::expression::Expr;
use c_checked::statement::{Declared, StackedVariable, Stmt};

/// A statement is run, or a part of one that ends normally.
pub fn ends<'p>() -> Plan<'p>
    ensures { plan_of result ≡ plans.ends }
{
    then(Next::Does(Action::Give(Completion::Normal)))
}

fn leaves<'p>(how: Completion) -> Plan<'p>
    ensures { plan_of result ≡ frames.Then (frames.Give (views.result_of how)) }
{
    then(Next::Does(Action::Give(how)))
}

fn runs<'p>(stmt: &'p Box<Stmt>, place: Place) -> Next<'p>
    ensures { views.next_of result
        ≡ frames.Start (tasks.Run (trees.statement stmt.now.value)) (place_of place) }
{
    start(Task::RunBoxed(stmt), place)
}

/// An expression is evaluated, and then a frame continues.
pub fn tested<'p>(frame: StatementFrame<'p>, expr: &'p Expr, place: Place) -> Plan<'p>
    ensures { plan_of result ≡ frames.Push (frames.InStatement
        (views.statement_frame_of frame.entry)) (plans.evaluates (tree.expression expr.now)
        (place_of place)) }
{
    push(
        ContinuationFrame::Waits(Waiting::Statement(frame)),
        evaluates(expr, place),
    )
}

/// An expression's value is given to a frame, and without an expression the rest is done at once.
fn evaluated<'p>(
    frame: StatementFrame<'p>,
    expr: &'p Option<Expr>,
    place: Place,
    plan: Plan<'p>,
) -> Plan<'p>
    ensures { plan_of result ≡ plans.evaluated (views.statement_frame_of frame.entry)
        (option_map tree.expression expr.now) (place_of place) (plan_of plan.entry) }
{
    match expr {
        None => plan,
        Some(expr) => {
            drop(plan);
            tested(frame, expr, place)
        }
    }
}

/// For statements from an index on, one after another.
pub fn proceed_plan<'p>(stmts: &'p Vec<Stmt>, next: usize, place: Place) -> Plan<'p>
    ensures { plan_of result
        ≡ plans.proceed_plan (views.statements_from stmts.now.items next) (place_of place) }
{
    if next >= stmts.len() {
        return ends();
    }
    push(
        ContinuationFrame::Waits(Waiting::Sequel(SequelFrame::Continues(stmts, next + 1, place))),
        start(Task::RunListed(stmts, next), place),
    )
}

/// For declared names from an index on, one after another.
pub fn declare_plan<'p>(declared: &'p Vec<Declared>, next: usize, place: Place) -> Plan<'p>
    ensures { plan_of result
        ≡ plans.declare_plan (views.declared_from declared.now.items next) (place_of place) }
{
    if next >= declared.len() {
        return ends();
    }
    push(
        ContinuationFrame::Waits(Waiting::Sequel(SequelFrame::DeclaresRest(
            declared,
            next + 1,
            place,
        ))),
        start(Task::Declare(&declared[next]), place),
    )
}

/// For a declared name, which is 0: its initialiser.
pub fn initialise_plan<'p>(declared: &'p Declared, place: Place) -> Plan<'p>
    ensures { let d = trees.declared declared.now in let p = place_of place in plan_of result
        ≡ plans.evaluated (frames.Initialises d.local p) d.value p (frames.Then
        (frames.SetLocal d.local 0 p)) }
{
    evaluated(
        StatementFrame::Initialises(declared.local, place),
        &declared.value,
        place,
        then(Next::Does(Action::SetLocal(declared.local, 0, place))),
    )
}

/// For a variable on the data stack, which is 0: its initialiser.
pub fn initialise_stacked_plan<'p>(
    variable: &'p StackedVariable,
    value: &'p Option<Expr>,
    place: Place,
) -> Plan<'p>
    ensures { let p = place_of place in plan_of result
        ≡ plans.evaluated (frames.InitialisesStacked variable.now p)
        (option_map tree.expression value.now) p plans.ends }
{
    evaluated(
        StatementFrame::InitialisesStacked(variable, place),
        value,
        place,
        ends(),
    )
}

/// An iteration of `for` or `while`.
pub fn iterate<'p>(of: ForLoop<'p>, place: Place) -> Next<'p>
    ensures { views.next_of result ≡ plans.iterate (views.for_loop_of of.entry) (place_of place) }
{
    start(Task::ForIteration(of), place)
}

/// The body of `for` or `while`.
pub fn for_body<'p>(of: ForLoop<'p>, place: Place) -> Plan<'p>
    ensures { plan_of result ≡ plans.for_body (views.for_loop_of of.entry) (place_of place) }
{
    push(
        ContinuationFrame::Waits(Waiting::Body(BodyFrame::EndsForBody(of, place))),
        runs(of.body, place),
    )
}

/// For an iteration of `for` or `while`, whose condition is tested first.
pub fn for_plan<'p>(of: ForLoop<'p>, place: Place) -> Plan<'p>
    ensures { let k = views.for_loop_of of.entry in let p = place_of place in plan_of result
        ≡ plans.evaluated (frames.TestsFor k p) k.condition p (plans.for_body k p) }
{
    evaluated(
        StatementFrame::For(ForPart::Tests, of, place),
        of.condition,
        place,
        for_body(of, place),
    )
}

/// For an iteration of `do`.
pub fn do_plan<'p>(body: &'p Box<Stmt>, condition: &'p Expr, place: Place) -> Plan<'p>
    ensures { plan_of result ≡ frames.Push (frames.Body (frames.EndsDoBody
        (trees.statement body.now.value) (tree.expression condition.now) (place_of place)))
        (frames.Start (tasks.Run (trees.statement body.now.value)) (place_of place)) }
{
    push(
        ContinuationFrame::Waits(Waiting::Body(BodyFrame::EndsDoBody(body, condition, place))),
        runs(body, place),
    )
}

/// For a loop, before its first iteration: its first expression.
pub fn first_plan<'p>(first: &'p Option<Expr>, of: ForLoop<'p>, place: Place) -> Plan<'p>
    ensures { let k = views.for_loop_of of.entry in let p = place_of place in plan_of result
        ≡ plans.evaluated (frames.Iterates k p) (option_map tree.expression first.now) p
        (frames.Then (plans.iterate k p)) }
{
    evaluated(
        StatementFrame::For(ForPart::Begins, of, place),
        first,
        place,
        then(iterate(of, place)),
    )
}

/// For `if`.
fn if_plan<'p>(
    condition: &'p Expr,
    yes: &'p Box<Stmt>,
    otherwise: &'p Option<Box<Stmt>>,
    place: Place,
) -> Plan<'p>
    ensures { plan_of result
        ≡ plans.statement_plan (trees.choice (tree.expression condition.now)
        (trees.statement yes.now.value)
        (option_map (λ s. trees.statement s.value) otherwise.now)) (place_of place) }
{
    match otherwise {
        None => tested(StatementFrame::Branches(yes, None, place), condition, place),
        Some(no) => tested(
            StatementFrame::Branches(yes, Some(no), place),
            condition,
            place,
        ),
    }
}

/// For `for` and `while`: the declarations first.
fn loop_plan<'p>(
    declared: &'p Vec<Declared>,
    first: &'p Option<Expr>,
    of: ForLoop<'p>,
    place: Place,
) -> Plan<'p>
    ensures { let k = views.for_loop_of of.entry in plan_of result ≡ plans.statement_plan (trees.For
        (map trees.declared declared.now.items) (option_map tree.expression first.now)
        k.condition k.next k.body) (place_of place) }
{
    push(
        ContinuationFrame::Waits(Waiting::Sequel(SequelFrame::EvaluatesFirst(first, of, place))),
        Next::Does(Action::DeclareEach(declared, 0, place)),
    )
}

/// For `return`.
fn return_plan<'p>(expr: &'p Option<Expr>, place: Place) -> Plan<'p>
    ensures { plan_of result ≡ plans.statement_plan (trees.Return
        (option_map tree.expression expr.now)) (place_of place) }
{
    evaluated(
        StatementFrame::Returns,
        expr,
        place,
        leaves(Completion::Returned(0)),
    )
}

/// For a `__try` with a `__finally`.
fn finally_plan<'p>(
    body: &'p Vec<Stmt>,
    number: u32,
    finally_block: &'p Vec<Stmt>,
    place: Place,
) -> Plan<'p>
    ensures { plan_of result ≡ plans.statement_plan (trees.TryFinally
        (views.all_statements body.now.items) number
        (views.all_statements finally_block.now.items)) (place_of place) }
{
    push(
        ContinuationFrame::Waits(Waiting::Finishes(number, finally_block, place)),
        start(Task::TryBody(body), place),
    )
}

/// For a statement.
pub fn statement_plan<'p>(stmt: &'p Stmt, place: Place) -> Plan<'p>
    ensures { plan_of result ≡ plans.statement_plan (trees.statement stmt.now) (place_of place) }
{
    match stmt {
        Stmt::Declare(declared) => then(Next::Does(Action::DeclareName(declared, place))),
        Stmt::Block(stmts) => then(Next::Does(Action::Proceed(stmts, 0, place))),
        Stmt::Evaluate(expr) => evaluated(StatementFrame::EndsEvaluation, expr, place, ends()),
        Stmt::If {
            condition,
            then: yes,
            otherwise,
        } => if_plan(condition, yes, otherwise, place),
        Stmt::For {
            declared,
            first,
            condition,
            next,
            body,
        } => {
            let of = ForLoop {
                condition,
                next,
                body,
            };
            loop_plan(declared, first, of, place)
        }
        Stmt::Do { body, condition } => then(start(Task::DoIteration { body, condition }, place)),
        Stmt::Return(expr) => return_plan(expr, place),
        Stmt::Break => leaves(Completion::Broke),
        Stmt::Continue => leaves(Completion::Continued),
        Stmt::Leave => leaves(Completion::LeftTry),
        Stmt::TryExcept {
            body,
            filter,
            handler,
        } => then(Next::Does(Action::Guard(body, filter, handler, place))),
        Stmt::TryFinally {
            body,
            number,
            finally_block,
        } => finally_plan(body, *number, finally_block, place),
    }
}

/// For a statement of a list; where there is none, nothing is done.
pub fn listed_plan<'p>(stmts: &'p Vec<Stmt>, index: usize, place: Place) -> Plan<'p>
    ensures { plan_of result
        ≡ plans.statement_plan (views.statement_at stmts.now.items index) (place_of place) }
{
    if index >= stmts.len() {
        return then(Next::Does(Action::Proceed(stmts, stmts.len(), place)));
    }
    statement_plan(&stmts[index], place)
}

/// What follows a condition of `if`.
pub fn branch<'p>(
    is_zero: bool,
    then_runs: &'p Box<Stmt>,
    otherwise: Option<&'p Box<Stmt>>,
    place: Place,
) -> Plan<'p>
    ensures { plan_of result
        ≡ plans.branch is_zero (trees.statement then_runs.now.value)
        (option_map (λ s. trees.statement s.now.value) otherwise.entry) (place_of place) }
{
    if !is_zero {
        return then(runs(then_runs, place));
    }
    match otherwise {
        None => ends(),
        Some(stmt) => then(runs(stmt, place)),
    }
}
