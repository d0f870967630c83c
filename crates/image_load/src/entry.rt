// The function of a call.

ghost use Rattle.std.specs.Prelude.{◌≡◌, ◌≤◌, IfSome, length, slice_get, true};
ghost use Rattle.hipe_base.specs.declared.limits.TheConstants.{ARITY_LIMIT};
ghost use Rattle.image_load.specs.Entry.{has_number, is_numbered, exported_numbered};
ghost use Rattle.image_load.specs.Loading.{exported};

use hipe_terms::Call;
use image_link::{Function, Image};

// Whether a function's name has this number.
fn has_number(number: u32, name: Option<u32>) -> bool
    ensures { result ≡ has_number number name }
{
    match name {
        None => false,
        Some(n) => number == n,
    }
}

// Whether a function has the name of this number and so many arguments.
fn is_numbered(number: u32, arity: usize, function: Option<Function>) -> bool
    ensures numbered { result ≡ is_numbered number arity function }
    ensures few { result ≡ true → arity ≤ ARITY_LIMIT }
{
    match function {
        None => false,
        Some(f) => has_number(number, f.name) && f.arity as usize == arity,
    }
}

// The function of this number.
fn function_at(functions: &[Function], number: u32) -> Option<Function>
    ensures { result ≡ slice_get functions.now number }
{
    functions.get(number as usize).copied()
}

// The first exported function that has the name of this number and so many arguments.
fn exported_numbered(
    functions: &[Function],
    number: u32,
    arity: usize,
    exports: &[u32],
) -> Option<Function>
    ensures first { result ≡ exported_numbered functions.now number arity exports.now }
    ensures few { IfSome result (λ f. arity ≤ ARITY_LIMIT) }
{
    for export in exports {
        let function = function_at(functions, *export);
        if is_numbered(number, arity, function) {
            return function;
        }
    }
    None
}

// The first exported function that has the name and the number of arguments of the call.
pub(crate) fn exported(image: &Image, call: &Call) -> Option<Function>
    ensures first { result ≡ exported image.now call.now.name (length call.now.args) image.now.exports }
    ensures few { IfSome result (λ f. length call.now.args ≤ ARITY_LIMIT) }
{
    image.rules();
    let number = image.atoms().number(&call.name)?;
    exported_numbered(image.functions(), number, call.args.len(), image.exports())
}
