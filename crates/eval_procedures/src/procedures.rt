// The functions of a module by their numbers.

ghost use Rattle.std.specs.Prelude.{◌≡◌, ◌+◌, ◌++◌, ◌∷◌, [], map, length, IfOk, OnOk};
ghost use Rattle.core_ast.specs.Trees.{expression_of, expressions, clause_of, clauses, function_of, definition_of, definitions};
ghost use Rattle.core_meaning.specs.Procedures.{procedures, procedures_in_all, procedures_in_clauses, procedures_of_group, fun_at, module_scope, known_from, own_procedures, inner_procedures, module_procedures};
ghost use Rattle.core_meaning.specs.Scopes.{names, binding, captured_by_fun};
ghost use Rattle.eval_procedures.specs.Shown.{scope_in, function_in, procedures_in, procedure_of, procedures_of_fun, procedures_of_letrec, procedures_where_bound, procedures_inside, Appends};

use crate::captured::{
    captured_by_fun, captured_by_group, carried, defined_function, group_scope, letrec_scope,
    next_number,
};
use crate::count::{
    add, funs, funs_in_all, funs_in_clause, funs_in_definition, funs_in_definitions,
};
use crate::nodes::frame;
use crate::procedure::Procedure;
use crate::scope::{Function, Scope, binding, names, names_bound_by};
use bumpalo::Bump;
use core_ast::{Clause, Expr, Fun, FunDef, Node, Var};
use hipe_base::Memory;
use std::alloc::Global;

// The functions that were found, in the order of their numbers.
#[derive(Drop)]
struct Table<'a> {
    alloc: Global,
    bump: &'a Bump,
    found: Vec<Procedure<'a>>,
}

/// All functions of a module with these definitions, in the order of their numbers: the module's own first, in the order of the
/// text, and then the funs and the functions of each `letrec`. An error where there is no memory for them, or where a count passes
/// 2^64 - 1.
#[tactic(auto, using(crate::proofs::Found::levels))]
pub fn module_procedures<'a>(
    alloc: Global,
    bump: &'a Bump,
    defs: &'a [FunDef],
) -> Result<Vec<Procedure<'a>>, Memory>
    ensures { IfOk result (λ found. procedures_in found.items ≡ module_procedures (definitions (map definition_of defs.now))) }
{
    let scope = module_scope(alloc, bump, defs)?;
    let mut table = Table {
        alloc,
        bump,
        found: Vec::new(alloc),
    };
    let first = defs.len() as u64;
    table.own(scope, first, defs)?;
    table.inner(scope, first, defs)?;
    let Table {
        alloc: _,
        bump: _,
        found,
    } = table;
    Ok(found)
}

// The scope of a module.
#[tactic(auto, using(crate::proofs::Found::levels))]
fn module_scope<'a>(alloc: Global, bump: &'a Bump, defs: &'a [FunDef]) -> Result<Scope<'a>, Memory>
    ensures { IfOk result (λ t. scope_in t ≡ module_scope (definitions (map definition_of defs.now))) }
{
    let functions = known_from(alloc, defs)?;
    Ok(Scope {
        variables: &[],
        functions: bump.try_alloc_slice_copy(functions.as_slice())?,
    })
}

// The functions of a module by their names.
#[tactic(auto, using(crate::proofs::Found::levels))]
fn known_from<'a>(alloc: Global, defs: &'a [FunDef]) -> Result<Vec<Function<'a>>, Memory>
    ensures { IfOk result (λ found. map function_in found.items ≡ known_from 0 (definitions (map definition_of defs.now))) }
{
    let mut found = Vec::new(alloc);
    let mut number = 0;
    for def in defs {
        found.push(defined_function(def, number, &[]))?;
        number = add(number, 1)?;
    }
    Ok(found)
}

impl<'a> Table<'a> {
    // The module's own functions, where n is the number of the first fun in them.
    #[tactic(auto, using(crate::proofs::Found::levels))]
    fn own(&mut self, scope: Scope<'a>, n: u64, defs: &'a [FunDef]) -> Result<(), Memory>
        ensures { OnOk result (Appends self.old.found.items self.new.found.items (own_procedures (scope_in scope.entry) n (definitions (map definition_of defs.now)))) }
    {
        let mut first = n;
        for def in defs {
            self.own_one(scope, first, def)?;
            first = add(first, funs_in_definition(def)?)?;
        }
        Ok(())
    }

    // One of the module's own functions.
    #[tactic(auto, using(crate::proofs::Found::levels))]
    fn own_one(&mut self, scope: Scope<'a>, n: u64, def: &'a FunDef) -> Result<(), Memory>
        ensures { OnOk result (Appends self.old.found.items self.new.found.items (own_procedures (scope_in scope.entry) n (definitions (definition_of def.now ∷ [])))) }
    {
        self.push(&def.fun, scope, 0, n)
    }

    // The funs in the module's own functions, where n is the number of the first.
    #[tactic(auto, using(crate::proofs::Found::levels))]
    fn inner(&mut self, scope: Scope<'a>, n: u64, defs: &'a [FunDef]) -> Result<(), Memory>
        ensures { OnOk result (Appends self.old.found.items self.new.found.items (inner_procedures (scope_in scope.entry) n (definitions (map definition_of defs.now)))) }
    {
        let mut first = n;
        for def in defs {
            self.inner_one(scope, first, def)?;
            first = add(first, funs_in_definition(def)?)?;
        }
        Ok(())
    }

    // The funs in one of the module's own functions.
    #[tactic(auto, using(crate::proofs::Found::levels))]
    fn inner_one(&mut self, scope: Scope<'a>, n: u64, def: &'a FunDef) -> Result<(), Memory>
        ensures { OnOk result (Appends self.old.found.items self.new.found.items (inner_procedures (scope_in scope.entry) n (definitions (definition_of def.now ∷ [])))) }
    {
        self.inside(scope, 0, n, &def.fun)?;
        Ok(())
    }

    #[tactic(auto, using(crate::proofs::Found::levels))]
    fn push(
        &mut self,
        fun: &'a Fun,
        scope: Scope<'a>,
        captured: u64,
        first: u64,
    ) -> Result<(), Memory>
        ensures { OnOk result (Appends self.old.found.items self.new.found.items (procedure_of (function_of fun.now) (scope_in scope.entry) captured first ∷ [])) }
    {
        let parameters = fun.params.as_slice();
        let body = fun.body.get();
        let frame = frame(parameters, body, captured)?;
        self.found.push(Procedure {
            parameters,
            body,
            scope,
            captured,
            first,
            frame,
        })?;
        Ok(())
    }

    // The functions in an expression: in this scope, with so many variables bound, where n is the number of the first.
    #[cycle(expression)]
    #[tactic(auto, using(crate::proofs::Found::levels))]
    fn expression(&mut self, s: Scope<'a>, slots: u64, n: u64, e: &'a Expr) -> Result<(), Memory>
        ensures { OnOk result (Appends self.old.found.items self.new.found.items (procedures (scope_in s.entry) slots n (expression_of e.now))) }
    {
        match &e.node {
            Node::Int(_) | Node::Atom(_) | Node::Nil | Node::Var(_) | Node::Name(_) => Ok(()),
            Node::Tuple(parts) => self.each(s, slots, n, parts.as_slice()),
            Node::List(parts, tail) => {
                self.each(s, slots, n, parts.as_slice())?;
                let n = add(n, funs_in_all(parts.as_slice())?)?;
                self.expression(s, slots, n, tail.get())
            }
            Node::Values(parts) => self.each(s, slots, n, parts.as_slice()),
            Node::Let(xs, values, body) => {
                self.expression(s, slots, n, values.get())?;
                let n = add(n, funs(values.get())?)?;
                self.bound(s, slots, xs.as_slice(), n, body.get())
            }
            Node::Case(values, clauses) => {
                self.expression(s, slots, n, values.get())?;
                let n = add(n, funs(values.get())?)?;
                self.clauses(s, slots, n, clauses.as_slice())
            }
            Node::Lambda(fun) => self.lambda(s, n, fun),
            Node::Letrec(defs, body) => {
                self.group(s, n, defs.as_slice())?;
                let scope = letrec_scope(self.alloc, self.bump, n, defs.as_slice(), s)?;
                let n = add(n, funs_in_definitions(defs.as_slice())?)?;
                self.expression(scope, slots, n, body.get())
            }
            Node::Apply(fun, args) => {
                self.expression(s, slots, n, fun.get())?;
                let n = add(n, funs(fun.get())?)?;
                self.each(s, slots, n, args.as_slice())
            }
            Node::Call(_, _, args) => self.each(s, slots, n, args.as_slice()),
            Node::Primop(_, args) => self.each(s, slots, n, args.as_slice()),
            Node::Try(part, xs, body, ys, handler) => {
                self.expression(s, slots, n, part.get())?;
                let n = add(n, funs(part.get())?)?;
                self.bound(s, slots, xs.as_slice(), n, body.get())?;
                let n = add(n, funs(body.get())?)?;
                self.bound(s, slots, ys.as_slice(), n, handler.get())
            }
            Node::Do(first, second) => {
                self.expression(s, slots, n, first.get())?;
                let n = add(n, funs(first.get())?)?;
                self.expression(s, slots, n, second.get())
            }
            Node::Catch(part) => self.expression(s, slots, n, part.get()),
        }
    }

    #[cycle(expression)]
    #[tactic(auto, using(crate::proofs::Found::levels))]
    fn each(&mut self, s: Scope<'a>, slots: u64, n: u64, list: &'a [Expr]) -> Result<(), Memory>
        ensures { OnOk result (Appends self.old.found.items self.new.found.items (procedures_in_all (scope_in s.entry) slots n (expressions (map expression_of list.now)))) }
    {
        let mut number = n;
        for e in list {
            self.expression(s, slots, number, e)?;
            number = add(number, funs(e)?)?;
        }
        Ok(())
    }

    // The functions in an expression where these variables are bound.
    #[cycle(expression)]
    #[tactic(auto, using(crate::proofs::Found::levels))]
    fn bound(
        &mut self,
        s: Scope<'a>,
        slots: u64,
        xs: &'a [Var],
        n: u64,
        body: &'a Expr,
    ) -> Result<(), Memory>
        ensures { OnOk result (Appends self.old.found.items self.new.found.items (procedures_where_bound (scope_in s.entry) slots xs.now n (expression_of body.now))) }
    {
        let found = names(self.alloc, xs)?;
        let scope = binding(self.bump, slots, found.as_slice(), s)?;
        self.expression(scope, add(slots, xs.len() as u64)?, n, body)
    }

    #[cycle(expression)]
    #[tactic(auto, using(crate::proofs::Found::levels))]
    fn clauses(
        &mut self,
        s: Scope<'a>,
        slots: u64,
        n: u64,
        list: &'a [Clause],
    ) -> Result<(), Memory>
        ensures { OnOk result (Appends self.old.found.items self.new.found.items (procedures_in_clauses (scope_in s.entry) slots n (clauses (map clause_of list.now)))) }
    {
        let mut number = n;
        for c in list {
            self.clause(s, slots, number, c)?;
            number = add(number, funs_in_clause(c)?)?;
        }
        Ok(())
    }

    #[cycle(expression)]
    #[tactic(auto, using(crate::proofs::Found::levels))]
    fn clause(&mut self, s: Scope<'a>, slots: u64, n: u64, c: &'a Clause) -> Result<(), Memory>
        ensures { OnOk result (Appends self.old.found.items self.new.found.items (procedures_in_clauses (scope_in s.entry) slots n (clauses (clause_of c.now ∷ [])))) }
    {
        let found = names_bound_by(self.alloc, c.patterns.as_slice())?;
        let scope = binding(self.bump, slots, found.as_slice(), s)?;
        let inner = add(slots, found.len() as u64)?;
        self.expression(scope, inner, n, &c.guard)?;
        let behind = add(n, funs(&c.guard)?)?;
        self.expression(scope, inner, behind, &c.body)?;
        Ok(())
    }

    // The functions in the body of a fun or of a definition, in the scope that it captured.
    #[cycle(expression)]
    #[tactic(auto, using(crate::proofs::Found::levels))]
    fn inside(&mut self, s: Scope<'a>, slots: u64, n: u64, fun: &'a Fun) -> Result<(), Memory>
        ensures { OnOk result (Appends self.old.found.items self.new.found.items (procedures_inside (scope_in s.entry) slots n (function_of fun.now))) }
    {
        self.bound(s, slots, fun.params.as_slice(), n, fun.body.get())
    }

    // A fun, before those in its body.
    #[cycle(expression)]
    #[tactic(auto, using(crate::proofs::Found::levels))]
    fn lambda(&mut self, s: Scope<'a>, n: u64, fun: &'a Fun) -> Result<(), Memory>
        ensures { OnOk result (Appends self.old.found.items self.new.found.items (procedures_of_fun (scope_in s.entry) n (function_of fun.now))) }
    {
        let captured = captured_by(self.alloc, s, fun)?;
        let scope = carried(self.alloc, self.bump, captured.as_slice(), s)?;
        let count = captured.len() as u64;
        let first = add(n, 1)?;
        self.push(fun, scope, count, first)?;
        self.inside(scope, count, first, fun)?;
        Ok(())
    }

    // The functions of a `letrec`, each before those in its body.
    #[cycle(expression)]
    #[tactic(auto, using(crate::proofs::Found::levels))]
    fn group(&mut self, s: Scope<'a>, n: u64, defs: &'a [FunDef]) -> Result<(), Memory>
        ensures { OnOk result (Appends self.old.found.items self.new.found.items (procedures_of_letrec (scope_in s.entry) n (definitions (map definition_of defs.now)))) }
    {
        let captured = captured_by_group(self.alloc, s, defs)?;
        let scope = group_scope(self.alloc, self.bump, n, defs, s)?;
        self.definitions(scope, captured.len() as u64, n, defs)
    }

    #[cycle(expression)]
    #[tactic(auto, using(crate::proofs::Found::levels))]
    fn definitions(
        &mut self,
        s: Scope<'a>,
        captured: u64,
        n: u64,
        defs: &'a [FunDef],
    ) -> Result<(), Memory>
        ensures { OnOk result (Appends self.old.found.items self.new.found.items (procedures_of_group captured (scope_in s.entry) n (definitions (map definition_of defs.now)))) }
    {
        let mut number = n;
        for def in defs {
            self.definition(s, captured, number, def)?;
            number = next_number(number, def)?;
        }
        Ok(())
    }

    #[cycle(expression)]
    #[tactic(auto, using(crate::proofs::Found::levels))]
    fn definition(
        &mut self,
        s: Scope<'a>,
        captured: u64,
        n: u64,
        def: &'a FunDef,
    ) -> Result<(), Memory>
        ensures { OnOk result (Appends self.old.found.items self.new.found.items (procedures_of_group captured (scope_in s.entry) n (definitions (definition_of def.now ∷ [])))) }
    {
        let first = add(n, 1)?;
        self.push(&def.fun, s, captured, first)?;
        self.inside(s, captured, first, &def.fun)
    }
}

// What a fun captures.
#[tactic(auto, using(crate::proofs::Found::levels))]
fn captured_by(alloc: Global, s: Scope<'_>, fun: &Fun) -> Result<Vec<u64>, Memory>
    ensures { IfOk result (λ found. found.items ≡ captured_by_fun (scope_in s.entry) (names (function_of fun.now).parameters) (function_of fun.now).body) }
{
    captured_by_fun(alloc, s, fun.params.as_slice(), fun.body.get())
}
