// Trees as texts. Where places are asked for, a part is followed by `@`, its line, `:` and its column.

use core_ast::{Clause, Expr, Fun, FunDef, FunName, Module, Node, PatNode, Pattern, Var};
use hipe_base::Memory;
use hipe_terms::{Atom, Call, Constant, Place};
use std::alloc::Global;

type Shown = Result<(), Memory>;

// What is shown so far, and whether it has places.
#[derive(Drop)]
struct Tree {
    alloc: Global,
    with_places: bool,
    text: String,
}

impl Tree {
    fn new(alloc: Global, with_places: bool) -> Tree {
        Tree {
            alloc,
            with_places,
            text: String::new(alloc),
        }
    }

    fn push(&mut self, part: &str) -> Shown {
        self.text.push_str(part)
    }

    fn number(&mut self, n: i64) -> Shown {
        let digits = format!(in self.alloc; "{n}")?;
        self.push(digits.as_str())
    }

    fn place(&mut self, at: Place) -> Shown {
        if !self.with_places {
            return Ok(());
        }
        let line = at.line;
        let col = at.col;
        let place = format!(in self.alloc; "@{line}:{col}")?;
        self.push(place.as_str())
    }

    fn atom(&mut self, name: &str) -> Shown {
        self.push("'")?;
        self.push(name)?;
        self.push("'")
    }

    fn name(&mut self, f: &FunName) -> Shown {
        self.atom(f.name.as_str())?;
        let arity = f.arity;
        let arity = format!(in self.alloc; "/{arity}")?;
        self.push(arity.as_str())
    }

    fn variable(&mut self, x: &Var) -> Shown {
        self.push(x.name.as_str())?;
        self.place(x.at)
    }

    fn variables(&mut self, list: &[Var]) -> Shown {
        self.push("<")?;
        for x in list {
            self.variable(x)?;
            self.push(";")?;
        }
        self.push(">")
    }
}

#[cycle(constant)]
#[tactic(auto, using(hipe_terms::proofs::Levels::term_levels))]
fn constant(tree: &mut Tree, c: &Constant) -> Shown {
    match c {
        Constant::Int(n) => tree.number(*n),
        Constant::Atom(a) => tree.atom(a.as_str()),
        Constant::Nil => tree.push("[]"),
        Constant::List(parts, tail) => {
            constants(tree, "[", parts.as_slice(), "|")?;
            constant(tree, tail.get())?;
            tree.push("]")
        }
        Constant::Tuple(parts) => constants(tree, "{", parts.as_slice(), "}"),
    }
}

#[cycle(constant)]
#[tactic(auto, using(hipe_terms::proofs::Levels::term_levels))]
fn constants(tree: &mut Tree, before: &str, parts: &[Constant], behind: &str) -> Shown {
    tree.push(before)?;
    for part in parts {
        constant(tree, part)?;
        tree.push(";")?;
    }
    tree.push(behind)
}

#[cycle(pattern)]
#[tactic(auto, using(core_ast::proofs::Levels::pattern_levels))]
fn pattern(tree: &mut Tree, f: &Pattern) -> Shown {
    pattern_node(tree, &f.node)?;
    tree.place(f.at)
}

#[cycle(pattern)]
#[tactic(auto, using(core_ast::proofs::Levels::pattern_levels))]
fn pattern_node(tree: &mut Tree, node: &PatNode) -> Shown {
    match node {
        PatNode::Var(x) => tree.push(x.as_str()),
        PatNode::Int(n) => tree.number(*n),
        PatNode::Atom(a) => tree.atom(a.as_str()),
        PatNode::Nil => tree.push("[]"),
        PatNode::Tuple(parts) => patterns(tree, "{", parts.as_slice(), "}"),
        PatNode::List(parts, tail) => {
            patterns(tree, "[", parts.as_slice(), "|")?;
            pattern(tree, tail.get())?;
            tree.push("]")
        }
        PatNode::Alias(x, part) => {
            tree.variable(x)?;
            tree.push("=")?;
            pattern(tree, part.get())
        }
    }
}

#[cycle(pattern)]
#[tactic(auto, using(core_ast::proofs::Levels::pattern_levels))]
fn patterns(tree: &mut Tree, before: &str, parts: &[Pattern], behind: &str) -> Shown {
    tree.push(before)?;
    for part in parts {
        pattern(tree, part)?;
        tree.push(";")?;
    }
    tree.push(behind)
}

#[cycle(expression)]
#[tactic(auto, using(core_ast::proofs::Levels::levels))]
fn expression(tree: &mut Tree, e: &Expr) -> Shown {
    node(tree, &e.node)?;
    tree.place(e.at)
}

#[cycle(expression)]
#[tactic(auto, using(core_ast::proofs::Levels::levels))]
fn node(tree: &mut Tree, n: &Node) -> Shown {
    match n {
        Node::Int(n) => tree.number(*n),
        Node::Atom(a) => tree.atom(a.as_str()),
        Node::Nil => tree.push("[]"),
        Node::Var(x) => tree.push(x.as_str()),
        Node::Name(f) => tree.name(f),
        Node::Tuple(parts) => expressions(tree, "{", parts.as_slice(), "}"),
        Node::List(parts, tail) => {
            expressions(tree, "[", parts.as_slice(), "|")?;
            part(tree, "", tail.get())?;
            tree.push("]")
        }
        Node::Values(parts) => expressions(tree, "<", parts.as_slice(), ">"),
        Node::Let(xs, values, body) => {
            branch(tree, "let ", xs.as_slice(), values.get())?;
            part(tree, " in ", body.get())
        }
        Node::Case(values, list) => {
            part(tree, "case ", values.get())?;
            clauses(tree, list.as_slice())
        }
        Node::Lambda(f) => fun(tree, f),
        Node::Letrec(defs, body) => {
            tree.push("letrec ")?;
            definitions(tree, defs.as_slice())?;
            part(tree, "in ", body.get())
        }
        Node::Apply(f, args) => {
            part(tree, "apply ", f.get())?;
            expressions(tree, "(", args.as_slice(), ")")
        }
        Node::Call(of, f, args) => call(tree, of, f, args.as_slice()),
        Node::Primop(f, args) => primop(tree, f, args.as_slice()),
        Node::Try(tried, xs, body, causes, handler) => {
            part(tree, "try ", tried.get())?;
            branch(tree, " of ", xs.as_slice(), body.get())?;
            branch(tree, " catch ", causes.as_slice(), handler.get())
        }
        Node::Do(first, second) => {
            part(tree, "do ", first.get())?;
            part(tree, " ", second.get())
        }
        Node::Catch(e) => part(tree, "catch ", e.get()),
    }
}

// What stands before an expression, and the expression.
#[cycle(expression)]
#[tactic(auto, using(core_ast::proofs::Levels::levels))]
fn part(tree: &mut Tree, before: &str, e: &Expr) -> Shown {
    tree.push(before)?;
    expression(tree, e)
}

// The same with variables between them.
#[cycle(expression)]
#[tactic(auto, using(core_ast::proofs::Levels::levels))]
fn branch(tree: &mut Tree, before: &str, xs: &[Var], e: &Expr) -> Shown {
    tree.push(before)?;
    tree.variables(xs)?;
    expression(tree, e)
}

#[cycle(expression)]
#[tactic(auto, using(core_ast::proofs::Levels::levels))]
fn expressions(tree: &mut Tree, before: &str, parts: &[Expr], behind: &str) -> Shown {
    tree.push(before)?;
    for e in parts {
        expression(tree, e)?;
        tree.push(";")?;
    }
    tree.push(behind)
}

#[cycle(expression)]
#[tactic(auto, using(core_ast::proofs::Levels::levels))]
fn call(tree: &mut Tree, of: &Atom, f: &Atom, args: &[Expr]) -> Shown {
    tree.push("call ")?;
    tree.atom(of.as_str())?;
    tree.atom(f.as_str())?;
    expressions(tree, "(", args, ")")
}

#[cycle(expression)]
#[tactic(auto, using(core_ast::proofs::Levels::levels))]
fn primop(tree: &mut Tree, f: &Atom, args: &[Expr]) -> Shown {
    tree.push("primop ")?;
    tree.atom(f.as_str())?;
    expressions(tree, "(", args, ")")
}

#[cycle(expression)]
#[tactic(auto, using(core_ast::proofs::Levels::levels))]
fn clause(tree: &mut Tree, c: &Clause) -> Shown {
    patterns(tree, " <", c.patterns.as_slice(), "> when ")?;
    expression(tree, &c.guard)?;
    part(tree, "->", &c.body)?;
    tree.place(c.at)
}

#[cycle(expression)]
#[tactic(auto, using(core_ast::proofs::Levels::levels))]
fn clauses(tree: &mut Tree, list: &[Clause]) -> Shown {
    for c in list {
        clause(tree, c)?;
    }
    Ok(())
}

#[cycle(expression)]
#[tactic(auto, using(core_ast::proofs::Levels::levels))]
fn fun(tree: &mut Tree, f: &Fun) -> Shown {
    tree.push("fun")?;
    tree.place(f.at)?;
    branch(tree, "", f.params.as_slice(), f.body.get())
}

#[cycle(expression)]
#[tactic(auto, using(core_ast::proofs::Levels::levels))]
fn definition(tree: &mut Tree, def: &FunDef) -> Shown {
    tree.name(&def.name)?;
    tree.place(def.at)?;
    tree.push("=")?;
    fun(tree, &def.fun)?;
    tree.push(" ")
}

#[cycle(expression)]
#[tactic(auto, using(core_ast::proofs::Levels::levels))]
fn definitions(tree: &mut Tree, defs: &[FunDef]) -> Shown {
    for def in defs {
        definition(tree, def)?;
    }
    Ok(())
}

/// A module.
pub(crate) fn show_module(alloc: Global, m: &Module, with_places: bool) -> Result<String, Memory> {
    let mut tree = Tree::new(alloc, with_places);
    tree.atom(m.name.as_str())?;
    tree.push("[")?;
    for (f, at) in m.exports.as_slice() {
        tree.name(f)?;
        tree.place(*at)?;
        tree.push(";")?;
    }
    tree.push("][")?;
    for (a, c) in m.attributes.as_slice() {
        tree.atom(a.as_str())?;
        tree.push("=")?;
        constant(&mut tree, c)?;
        tree.push(";")?;
    }
    tree.push("] ")?;
    definitions(&mut tree, m.defs.as_slice())?;
    Ok(tree.text)
}

/// A call.
pub(crate) fn show_call(alloc: Global, call: &Call) -> Result<String, Memory> {
    let mut tree = Tree::new(alloc, false);
    tree.atom(call.name.as_str())?;
    constants(&mut tree, "(", call.args.as_slice(), ")")?;
    Ok(tree.text)
}
