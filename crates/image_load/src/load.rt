// From an image and a call to a program in memory.
ghost use Rattle.std.specs.Prelude.{◌≡◌, ◌≤◌, length, IfOk, IfSome, All};
ghost use Rattle.hipe_base.specs.declared.limits.TheConstants.{ARITY_LIMIT};
ghost use Rattle.region_memory.specs.declared.layout.TheConstants.{TABLE_LIMIT};
ghost use Rattle.hipe_terms.specs.Constants.{AreConstants, IsConstant};
ghost use Rattle.heap_terms.specs.Seen.{symbols_of};
ghost use Rattle.image_load.specs.Loading.{begun, loaded};
ghost use Rattle.image_load.specs.Seen.{loaded_seen};

use crate::entry::exported;
use crate::memory::{first_four, fit, put_call, table_of};
use crate::numbers::TableNumbers;
use crate::symbols::symbols_for;
use heap_terms::{Symbols, build_each};
use hipe_base::Memory;
use hipe_terms::{Call, Constant};
use image_link::{AtomTable, Function, Image, ImageParts};
use region_memory::Region;
use region_memory::layout::CODE_BEGIN;
use std::alloc::Global;

/// How a run begins.
#[derive(Clone, Copy, Debug, PartialEq, Eq)]
pub enum Start {
    /// The image exports no function of the call's name and number of arguments.
    Undefined,
    /// The call's constants don't fit the heap.
    HeapFull,
    /// The call is in memory.
    Ready {
        /// The address of the first instruction.
        at: u64,
        /// The words of the first four arguments, 0 where there are fewer.
        arguments: [u64; 4],
        /// The heap pointer: the address behind the words that were built.
        free: u64,
    },
}

/// A program in memory, before its first instruction.
#[derive(Drop)]
pub struct Loaded {
    /// The memory, in which the program stands.
    pub region: Region,
    /// The symbols of the program and of the call.
    pub symbols: Symbols,
    /// How the run begins.
    pub start: Start,
}

/// Puts an image and the constants of a call into memory. The call's atoms that the image hasn't go behind the image's, in the
/// order in which they stand in the call. The run begins at the closure entry of the first exported function, by number, that has
/// the call's name and number of arguments; the address of the exit part, which is the code's first, is on the stack.
///
/// # Errors
///
/// `Memory` where there was no memory for the symbols, the function table or the constants.
#[tactic(auto, unfolding(crate::specs::Loading::loaded))]
pub fn load_program(
    alloc: Global,
    image: Image,
    call: &Call,
    region: Region,
) -> Result<Loaded, Memory>
    requires constants { All IsConstant call.now.args }
    requires functions { length image.functions ≤ TABLE_LIMIT }
    ensures { IfOk result (λ l. loaded_seen l ≡ loaded image call.now region) }
{
    image.rules();
    let function = exported(&image, call);
    let ImageParts {
        mut atoms,
        module: _,
        functions,
        exports: _,
        code,
    } = image.into_parts();
    let table = table_of(alloc, functions.as_slice())?;
    let symbols = symbols_for(
        alloc,
        &mut atoms,
        functions.as_slice(),
        call.args.as_slice(),
    )?;
    begin(
        alloc,
        symbols,
        &atoms,
        region.with_program(code, table),
        call.args.as_slice(),
        function,
    )
}

// A call of this function, where the code is in memory. The table has the atoms of the symbols.
fn begin(
    alloc: Global,
    symbols: Symbols,
    table: &AtomTable,
    mut region: Region,
    args: &[Constant],
    function: Option<Function>,
) -> Result<Loaded, Memory>
    requires constants { AreConstants args.now }
    requires few { IfSome function (λ f. length args.now ≤ ARITY_LIMIT) }
    requires table { table.now ≡ symbols.atoms.items }
    ensures { IfOk result (λ l. loaded_seen l ≡ begun (symbols_of symbols) region args.now function) }
{
    let Some(function) = function else {
        return Ok(Loaded {
            region,
            symbols,
            start: Start::Undefined,
        });
    };
    if !fit(region.heap().len(), args) {
        return Ok(Loaded {
            region,
            symbols,
            start: Start::HeapFull,
        });
    }
    let heap_begin = region.heap_begin();
    let mut words = Vec::new(alloc);
    let arguments = build_each(alloc, heap_begin, &TableNumbers { table }, args, &mut words)?;
    put_call(&mut region, arguments.as_slice(), words.as_slice());
    let start = Start::Ready {
        at: CODE_BEGIN + function.closure_entry as u64,
        arguments: first_four(arguments.as_slice()),
        free: heap_begin + 8 * words.len() as u64,
    };
    Ok(Loaded {
        region,
        symbols,
        start,
    })
}
