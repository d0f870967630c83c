// The text of a module.

ghost use Rattle.std.specs.Prelude.{◌≡◌, map, codes, All, string_bytes, IfOk, OnOk};
ghost use Rattle.hipe_terms.specs.Constants.{IsConstant};
ghost use Rattle.core_ast.specs.Trees.{module_of};
ghost use Rattle.core_print.specs.Printed.{followed_by, opened, export_pieces, attribute_pieces, head_pieces, attributes_pieces, printed};
ghost use Rattle.core_ast.specs.WellFormed.{IsWellFormed};

use crate::expression::definitions;
use crate::piece::{atom, comma, constant, deeper, function_name, keyword, line, sign, space};
use core_ast::{FunName, Module};
use hipe_base::Memory;
use hipe_terms::{Atom, Constant, Place};
use std::alloc::Global;

/// The text of a module in UTF-8, of the grammar of Core Erlang 1.0.3: each part on a line of its own where it begins a
/// block, indented by two spaces a level, and without annotations. An error where there is no memory for it. That its time
/// goes by the length of the text, and its depth by the nesting of the module, is how the code is written, and no contract
/// says it.
#[tactic(auto, using(crate::proofs::Printing::module_prints))]
pub fn print_module(alloc: Global, m: &Module) -> Result<Vec<u8>, Memory>
    requires { IsWellFormed (module_of m.now) }
    ensures { IfOk result (λ text. text.items ≡ printed (module_of m.now)) }
{
    let mut out = String::new(alloc);
    head(alloc, &mut out, &m.name, m.exports.as_slice())?;
    attributes(alloc, &mut out, m.attributes.as_slice())?;
    definitions(alloc, &mut out, 0, m.defs.as_slice())?;
    line(&mut out, 0)?;
    keyword(&mut out, "end")?;
    line(&mut out, 0)?;
    Ok(out.into_bytes())
}

// `module`, its name and the functions that it exports.
#[tactic(auto, using(crate::proofs::Printing::module_prints))]
fn head(
    alloc: Global,
    out: &mut String,
    name: &Atom,
    exports: &[(FunName, Place)],
) -> Result<(), Memory>
    ensures { OnOk result (string_bytes out.new ≡ followed_by (head_pieces name.now exports.now) (string_bytes out.old)) }
{
    keyword(out, "module")?;
    space(out)?;
    atom(alloc, out, name)?;
    space(out)?;
    exported(alloc, out, exports)?;
    sign(out, "]")
}

// What opens the exports, and the exports with commas between them.
#[tactic(auto, using(crate::proofs::Printing::module_prints))]
fn exported(alloc: Global, out: &mut String, exports: &[(FunName, Place)]) -> Result<(), Memory>
    ensures { OnOk result (string_bytes out.new ≡ followed_by (opened (codes "[") (map export_pieces exports.now)) (string_bytes out.old)) }
{
    sign(out, "[")?;
    for (i, export) in exports.iter().enumerate() {
        comma(out, i)?;
        function_name(alloc, out, &export.0)?;
    }
    Ok(())
}

// The line of the attributes.
#[tactic(auto, using(crate::proofs::Printing::module_prints))]
fn attributes(alloc: Global, out: &mut String, list: &[(Atom, Constant)]) -> Result<(), Memory>
    requires { All (λ a. IsConstant a.1) list.now }
    ensures { OnOk result (string_bytes out.new ≡ followed_by (attributes_pieces list.now) (string_bytes out.old)) }
{
    line(out, deeper(0))?;
    keyword(out, "attributes")?;
    space(out)?;
    listed(alloc, out, list)?;
    sign(out, "]")
}

// What opens the attributes, and the attributes with commas between them.
#[tactic(auto, using(crate::proofs::Printing::module_prints))]
fn listed(alloc: Global, out: &mut String, list: &[(Atom, Constant)]) -> Result<(), Memory>
    requires { All (λ a. IsConstant a.1) list.now }
    ensures { OnOk result (string_bytes out.new ≡ followed_by (opened (codes "[") (map attribute_pieces list.now)) (string_bytes out.old)) }
{
    sign(out, "[")?;
    for (i, attribute) in list.iter().enumerate() {
        comma(out, i)?;
        one_attribute(alloc, out, attribute)?;
    }
    Ok(())
}

#[tactic(auto, using(crate::proofs::Printing::module_prints))]
fn one_attribute(
    alloc: Global,
    out: &mut String,
    attribute: &(Atom, Constant),
) -> Result<(), Memory>
    requires { IsConstant attribute.now.1 }
    ensures { OnOk result (string_bytes out.new ≡ followed_by (attribute_pieces attribute.now) (string_bytes out.old)) }
{
    atom(alloc, out, &attribute.0)?;
    space(out)?;
    sign(out, "=")?;
    space(out)?;
    constant(alloc, out, &attribute.1)
}
