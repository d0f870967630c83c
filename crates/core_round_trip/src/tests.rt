// The factorial, read and printed twice.

ghost use Rattle.core_round_trip.specs.Laws.{IsOfText};

use crate::rereading::reread;
use core_print::print_module;
use core_reader::{ReadRefusal, read_module};
use std::alloc::Global;
use std::test::Fail;

// After the form of `erlc +to_core`.
const FACTORIAL: &[u8] = b"module 'fact' ['fact'/1,
               'module_info'/0,
               'module_info'/1]
    attributes [%% Line 1
                'file' = [{[102|[97|[99|[116|[46|[101|[114|[108]]]]]]]],1}]]
'fact'/1 =
    ( fun (_0) ->
          ( case ( _0 -| [{'function',{'fact',1}}] ) of
              <0> when 'true' ->
                  1
              <N> when 'true' ->
                  let <_1> = call 'erlang':'-'(N, 1)
                  in  let <_2> = apply 'fact'/1(_1)
                      in  call 'erlang':'*'(N, _2)
              ( <_3> when 'true' ->
                    ( primop 'match_fail'(( {'function_clause',_3}
                        -| [{'function_name',{'fact',1}}] ))
                      -| [{'function_name',{'fact',1}}] )
                -| ['compiler_generated'] )
            end
            -| [{'function',{'fact',1}}] )
      -| [{'function',{'fact',1}}] )
'module_info'/0 =
    fun () -> call 'erlang':'get_module_info'('fact')
'module_info'/1 =
    fun (_0) -> call 'erlang':'get_module_info'('fact', _0)
end
";

// The same without annotations, each block on lines of its own.
const PRINTED: &[u8] = b"module 'fact' ['fact'/1,'module_info'/0,'module_info'/1]
  attributes ['file' = [{[102,97,99,116,46,101,114,108],1}]]
'fact'/1 =
  fun (_0) ->
    case _0 of
      <0> when 'true' ->
        1
      <N> when 'true' ->
        let <_1> =
          call 'erlang':'-'(N,1)
        in
        let <_2> =
          apply 'fact'/1(_1)
        in
        call 'erlang':'*'(N,_2)
      <_3> when 'true' ->
        primop 'match_fail'({'function_clause',_3})
    end
'module_info'/0 =
  fun () ->
    call 'erlang':'get_module_info'('fact')
'module_info'/1 =
  fun (_0) ->
    call 'erlang':'get_module_info'('fact',_0)
end
";

// The text of the module of a text, printed, read and printed again. A text of more than 65,536 bytes comes back as it is.
#[tactic(auto, using(crate::proofs::RoundTrip::reading))]
fn printed_twice(alloc: Global, text: &[u8]) -> Result<Vec<u8>, ReadRefusal> {
    if text.len() > 65536 {
        return Ok(Vec::from_slice(alloc, text)?);
    }
    let m = match read_module(alloc, text) {
        Ok(m) => m,
        Err(refusal) => return Err(refusal),
    };
    let once = print_module(alloc, &m)?;
    if once.len() > 65536 {
        return Ok(once);
    }
    let again = match reread(alloc, &m) {
        Ok(again) => again,
        Err(refusal) => return Err(refusal),
    };
    let twice = print_module(alloc, &again)?;
    Ok(twice)
}

#[test]
fn the_factorial_reads_back(rt: HostRuntime) -> Result<(), Fail> {
    let alloc = rt.alloc();
    match printed_twice(alloc, FACTORIAL) {
        Ok(text) => assert!(rt; text.as_slice() == PRINTED),
        Err(_) => assert!(rt; false),
    }
    Ok(())
}
