// What is done with each expression.

ghost use Rattle.std.specs.Prelude.{◌≡◌, ◌∷◌, [], map, Some, IfOk, option_map};
ghost use Rattle.hipe_terms.specs.Terms.{integer, atom, nil};
ghost use Rattle.core_ast.specs.Nodes.{patterns_nodes};
ghost use Rattle.core_ast.specs.Trees.{expression_of, clause_of, clauses, function_of};
ghost use Rattle.eval_contexts.specs.Contexts.{context_in};
ghost use Rattle.core_meaning.specs.Meaning.{worked, with_value, value_of, makes_fun, makes_named, tested_nodes, direct};
ghost use Rattle.core_meaning.specs.Meaning as Meant;
ghost use Rattle.core_meaning.specs.Source.{unlimited};
ghost use Rattle.eval_values.specs.Values.{terms_in};
ghost use Rattle.eval_run.specs.Configurations.{purpose_in, IfOkRuns, evaluates_rest};
ghost use Rattle.eval_run.specs.Waiting.{evaluates};
ghost use Rattle.eval_run.specs.Constructs.{node_run, evaluates_counted};
ghost use Rattle.core_ast.specs.declared.tree.Node.TheOpen.{Node-F};

use crate::frame::{Control, Ending, Frame, Goal};
use crate::run::{Evaluator, Run};
use core_ast::{Clause, Expr, Fun, FunDef, FunName, Node, Var, VariableName};
use eval_contexts::Context;
use eval_procedures::{add, captured_by_fun, funs, funs_in_all, patterns_nodes};
use eval_values::Value;
use hipe_base::Memory;
use hipe_terms::Atom;
use sqlite_items::Items;

impl<'a, 'p> Evaluator<'a, 'p> {
    /// An expression is evaluated in its context.
    #[tactic(auto, using(crate::proofs::Expressions::evaluating))]
    pub fn evaluate(
        self,
        run: &mut Run<'a>,
        e: &'a Expr,
        c: Context<'a>,
    ) -> Result<Control<'a>, Memory>
        ensures { IfOkRuns self.entry run.old run.new result (λ p s w. evaluates p (expression_of e.now) (context_in c.entry) s w) }
    {
        match &e.node {
            Node::Int(n) => self.integer(run, *n),
            Node::Atom(a) => self.atom(run, a),
            Node::Nil => self.nil(run),
            Node::Var(x) => self.variable(run, x, c),
            Node::Name(f) => self.named(run, f, c),
            Node::Tuple(parts) => self.counted_parts(run, 1, parts.as_slice(), c, Goal::Tuple),
            Node::List(parts, tail) => self.list_parts(run, parts.as_slice(), tail.get(), c),
            Node::Values(parts) => self.counted_parts(run, 1, parts.as_slice(), c, Goal::Values),
            Node::Let(xs, values, body) => {
                self.bind(run, xs.as_slice(), values.get(), body.get(), c)
            }
            Node::Case(values, clauses) => self.case(run, values.get(), clauses.as_slice(), c),
            Node::Lambda(fun) => self.lambda(run, fun, c),
            Node::Letrec(defs, body) => self.letrec(run, defs.as_slice(), body.get(), c),
            Node::Apply(fun, args) => self.application(run, fun.get(), args.as_slice(), c),
            Node::Call(of, name, args) => self.call_parts(run, of, name, args.as_slice(), c),
            Node::Primop(name, args) => {
                self.counted_parts(run, 1, args.as_slice(), c, Goal::Primop(name))
            }
            Node::Try(part, xs, body, ys, handler) => {
                self.attempt(
                    run,
                    part.get(),
                    xs.as_slice(),
                    body.get(),
                    ys.as_slice(),
                    handler.get(),
                    c,
                )
            }
            Node::Do(first, second) => self.sequence(run, first.get(), second.get(), c),
            Node::Catch(part) => self.catch(run, part.get(), c),
        }
    }

    /// An integer.
    #[tactic(auto, using(eval_values::proofs::Made::made))]
    fn integer(self, run: &mut Run<'a>, n: i64) -> Result<Control<'a>, Memory>
        ensures { IfOkRuns self.entry run.old run.new result (λ p s w. w.next (integer n ∷ []) (worked 1 s)) }
    {
        run.worked(1)?;
        Ok(Control::Value(Value::Int(n)))
    }

    /// An atom.
    #[tactic(auto, using(eval_values::proofs::Made::made))]
    fn atom(self, run: &mut Run<'a>, a: &'a Atom) -> Result<Control<'a>, Memory>
        ensures { IfOkRuns self.entry run.old run.new result (λ p s w. w.next (atom a.now ∷ []) (worked 1 s)) }
    {
        run.worked(1)?;
        Ok(Control::Value(Value::Atom(a)))
    }

    /// The empty list.
    #[tactic(auto, using(eval_values::proofs::Made::made))]
    fn nil(self, run: &mut Run<'a>) -> Result<Control<'a>, Memory>
        ensures { IfOkRuns self.entry run.old run.new result (λ p s w. w.next (nil ∷ []) (worked 1 s)) }
    {
        run.worked(1)?;
        Ok(Control::Value(Value::Nil))
    }

    /// A variable.
    #[tactic(auto, using(crate::proofs::Primitives::primitives))]
    fn variable(
        self,
        run: &mut Run<'a>,
        x: &VariableName,
        c: Context<'a>,
    ) -> Result<Control<'a>, Memory>
        ensures { IfOkRuns self.entry run.old run.new result (λ p s w. with_value (value_of x.now (context_in c.entry)) (worked 1 s) w.next) }
    {
        run.worked(1)?;
        match c.value_of(x) {
            Some(value) => Ok(Control::Value(value)),
            None => Ok(Control::End(Ending::Stuck)),
        }
    }

    /// A function's name as a value.
    #[tactic(auto, using(crate::proofs::Primitives::primitives))]
    fn named(self, run: &mut Run<'a>, f: &FunName, c: Context<'a>) -> Result<Control<'a>, Memory>
        ensures { IfOkRuns self.entry run.old run.new result (λ p s w. makes_named (unlimited p) (Meant.function_of f.now (context_in c.entry)) (worked 1 s) w.next) }
    {
        run.worked(1)?;
        match c.function_of(self.arena, f)? {
            Some((n, values)) => self.makes_fun(run, n, values),
            None => Ok(Control::End(Ending::Stuck)),
        }
    }

    /// A fun as a value, with what it captured.
    #[tactic(auto, using(crate::proofs::Primitives::primitives))]
    fn makes_fun(
        self,
        run: &mut Run<'a>,
        n: u64,
        captured: &'a [Value<'a>],
    ) -> Result<Control<'a>, Memory>
        ensures { IfOkRuns self.entry run.old run.new result (λ p s w. makes_fun (unlimited p) n (Some (terms_in captured.now)) s w.next) }
    {
        let count = captured.len() as u64;
        run.worked(count)?;
        run.builds(add(count, 2)?)?;
        Ok(Control::Value(Value::Fun(n, captured)))
    }

    // So much work and one unit for each of these parts, and then the parts.
    fn counted_parts(
        self,
        run: &mut Run<'a>,
        work: u64,
        parts: &'a [Expr],
        c: Context<'a>,
        goal: Goal<'a>,
    ) -> Result<Control<'a>, Memory>
        ensures { IfOkRuns self.entry run.old run.new result (λ p s w. evaluates_counted p work parts.now (context_in c.entry) (purpose_in goal.entry) s w) }
    {
        run.worked(add(work, parts.len() as u64)?)?;
        self.parts(run, parts, Items::new(self.arena.alloc), c.part(), goal)
    }

    /// The other parts of a list are evaluated, or all is done with their values where none is left.
    pub fn parts(
        self,
        run: &mut Run<'a>,
        parts: &'a [Expr],
        done: Items<Value<'a>>,
        c: Context<'a>,
        goal: Goal<'a>,
    ) -> Result<Control<'a>, Memory>
        ensures { IfOkRuns self.entry run.old run.new result (λ p s w. evaluates_rest p parts.now c.entry goal.entry (terms_in done.entry) s w) }
    {
        match parts {
            [] => self.reach(run, goal, done),
            [e, rest @ ..] => self.first_part(run, e, rest, done, c, goal),
        }
    }

    // The first of some parts is evaluated.
    #[tactic(auto, using(crate::proofs::Waits::part_lists))]
    fn first_part(
        self,
        run: &mut Run<'a>,
        e: &'a Expr,
        rest: &'a [Expr],
        done: Items<Value<'a>>,
        c: Context<'a>,
        goal: Goal<'a>,
    ) -> Result<Control<'a>, Memory>
        ensures { IfOkRuns self.entry run.old run.new result (λ p s w. evaluates_rest p (e.now ∷ rest.now) c.entry goal.entry (terms_in done.entry) s w) }
    {
        let behind = c.behind(funs(e)?)?;
        let frame = Frame::Parts {
            rest,
            done,
            context: behind,
            goal,
        };
        self.wait(run, frame, e, c)
    }

    // The elements and the tail of a list.
    fn list_parts(
        self,
        run: &mut Run<'a>,
        parts: &'a [Expr],
        tail: &'a Expr,
        c: Context<'a>,
    ) -> Result<Control<'a>, Memory>
        ensures { IfOkRuns self.entry run.old run.new result (λ p s w. node_run p (Node-F.List parts.now tail.now) (context_in c.entry) s w) }
    {
        let behind = c.behind(funs_in_all(parts)?)?;
        self.counted_parts(run, 2, parts, c, Goal::List(tail, behind.part()))
    }

    // The arguments of a call.
    #[tactic(auto, using(crate::proofs::Contexts::contexts))]
    fn call_parts(
        self,
        run: &mut Run<'a>,
        of: &'a Atom,
        name: &'a Atom,
        args: &'a [Expr],
        c: Context<'a>,
    ) -> Result<Control<'a>, Memory>
        ensures { IfOkRuns self.entry run.old run.new result (λ p s w. node_run p (Node-F.Call of.now name.now args.now) (context_in c.entry) s w) }
    {
        self.counted_parts(run, 1, args, c, Goal::Call(of, name, c.depth))
    }

    // `let`.
    fn bind(
        self,
        run: &mut Run<'a>,
        xs: &'a [Var],
        values: &'a Expr,
        body: &'a Expr,
        c: Context<'a>,
    ) -> Result<Control<'a>, Memory>
        ensures { IfOkRuns self.entry run.old run.new result (λ p s w. node_run p (Node-F.Let xs.now values.now body.now) (context_in c.entry) s w) }
    {
        run.worked(add(3, xs.len() as u64)?)?;
        let behind = c.behind(funs(values)?)?;
        self.wait(run, Frame::Let(xs, body, behind), values, c.part())
    }

    // `case`.
    fn case(
        self,
        run: &mut Run<'a>,
        values: &'a Expr,
        list: &'a [Clause],
        c: Context<'a>,
    ) -> Result<Control<'a>, Memory>
        ensures { IfOkRuns self.entry run.old run.new result (λ p s w. node_run p (Node-F.Case values.now list.now) (context_in c.entry) s w) }
    {
        let count = add(2, list.len() as u64)?;
        run.worked(add(count, tested_nodes(list)?)?)?;
        let behind = c.behind(funs(values)?)?;
        self.wait(run, Frame::Case(list, behind), values, c.part())
    }

    // A fun.
    #[tactic(auto, using(crate::proofs::Primitives::lambdas))]
    fn lambda(self, run: &mut Run<'a>, fun: &'a Fun, c: Context<'a>) -> Result<Control<'a>, Memory>
        ensures { IfOkRuns self.entry run.old run.new result (λ p s w. node_run p (Node-F.Lambda fun.now) (context_in c.entry) s w) }
    {
        run.worked(2)?;
        let parameters = fun.params.as_slice();
        let slots = captured_by_fun(self.arena.alloc, c.scope, parameters, fun.body.get())?;
        match c.values_in(self.arena, slots.as_slice())? {
            Some(values) => self.makes_fun(run, c.number, values),
            None => Ok(Control::End(Ending::Stuck)),
        }
    }

    // `letrec`.
    fn letrec(
        self,
        run: &mut Run<'a>,
        defs: &'a [FunDef],
        body: &'a Expr,
        c: Context<'a>,
    ) -> Result<Control<'a>, Memory>
        ensures { IfOkRuns self.entry run.old run.new result (λ p s w. node_run p (Node-F.Letrec defs.now body.now) (context_in c.entry) s w) }
    {
        run.worked(add(2, defs.len() as u64)?)?;
        Ok(Control::Evaluate(body, c.with_functions(self.arena, defs)?))
    }

    // `apply`.
    #[tactic(auto, using(crate::proofs::Contexts::contexts))]
    fn application(
        self,
        run: &mut Run<'a>,
        fun: &'a Expr,
        args: &'a [Expr],
        c: Context<'a>,
    ) -> Result<Control<'a>, Memory>
        ensures { IfOkRuns self.entry run.old run.new result (λ p s w. node_run p (Node-F.Apply fun.now args.now) (context_in c.entry) s w) }
    {
        let behind = c.behind(funs(fun)?)?;
        match direct(fun, args.len()) {
            Some(f) => self.counted_parts(run, 2, args, behind, Goal::Name(f, c)),
            None => {
                run.worked(add(2, args.len() as u64)?)?;
                self.wait(
                    run,
                    Frame::Operator(args, behind.part(), c.depth),
                    fun,
                    c.part(),
                )
            }
        }
    }

    // `try`.
    fn attempt(
        self,
        run: &mut Run<'a>,
        tried: &'a Expr,
        xs: &'a [Var],
        body: &'a Expr,
        ys: &'a [Var],
        handler: &'a Expr,
        c: Context<'a>,
    ) -> Result<Control<'a>, Memory>
        ensures { IfOkRuns self.entry run.old run.new result (λ p s w. node_run p (Node-F.Try tried.now xs.now body.now ys.now handler.now) (context_in c.entry) s w) }
    {
        run.worked(add(add(4, xs.len() as u64)?, ys.len() as u64)?)?;
        let before = funs(tried)?;
        let of = c.behind(before)?;
        let catch = c.behind(add(before, funs(body)?)?)?;
        let frame = Frame::Try {
            variables: xs,
            body,
            context: of,
            causes: ys,
            handler,
            handled: catch,
        };
        self.wait(run, frame, tried, c.part())
    }

    // `do`.
    fn sequence(
        self,
        run: &mut Run<'a>,
        first: &'a Expr,
        second: &'a Expr,
        c: Context<'a>,
    ) -> Result<Control<'a>, Memory>
        ensures { IfOkRuns self.entry run.old run.new result (λ p s w. node_run p (Node-F.Do first.now second.now) (context_in c.entry) s w) }
    {
        run.worked(3)?;
        let behind = c.behind(funs(first)?)?;
        self.wait(run, Frame::Do(second, behind), first, c.part())
    }

    // `catch`.
    fn catch(self, run: &mut Run<'a>, part: &'a Expr, c: Context<'a>) -> Result<Control<'a>, Memory>
        ensures { IfOkRuns self.entry run.old run.new result (λ p s w. node_run p (Node-F.Catch part.now) (context_in c.entry) s w) }
    {
        run.worked(2)?;
        self.wait(run, Frame::Catch, part, c.part())
    }
}

/// The name of a function that is applied to as many arguments as it has parameters.
#[tactic(auto, using(core_ast::proofs::Levels::levels))]
fn direct(fun: &Expr, count: usize) -> Option<&FunName>
    ensures { option_map (λ f. f.now) result ≡ direct (expression_of fun.now) count }
{
    match &fun.node {
        Node::Name(f) => {
            if f.arity == count as u64 {
                Some(f)
            } else {
                None
            }
        }
        _ => None,
    }
}

/// The pattern nodes of all clauses.
#[tactic(auto, using(core_ast::proofs::Levels::levels))]
fn tested_nodes(list: &[Clause]) -> Result<u64, Memory>
    ensures { IfOk result (λ n. n ≡ tested_nodes (clauses (map clause_of list.now))) }
{
    let mut count = 0;
    for c in list {
        count = add(count, tested_in_clause(c)?)?;
    }
    Ok(count)
}

/// The pattern nodes of a clause.
#[tactic(auto, using(core_ast::proofs::Levels::levels))]
fn tested_in_clause(c: &Clause) -> Result<u64, Memory>
    ensures { IfOk result (λ n. n ≡ patterns_nodes (clause_of c.now).patterns) }
{
    patterns_nodes(c.patterns.as_slice())
}
