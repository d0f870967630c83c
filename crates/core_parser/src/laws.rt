// What the machine proves of the grammar, and that it reads what the grammar says.

ghost use Rattle.core_grammar.specs.Laws.{
  OneModule,
  RefusedDerivesNoModule,
  SomeModuleAnswer,
  OneModuleAnswer,
  OneCall,
  RefusedDerivesNoCall,
  SomeCallAnswer,
  OneCallAnswer,
};
ghost use Rattle.core_parser.specs.Laws.{
  ReadsDerivedModules,
  DerivesReadModules,
  StopsAtRefusedModules,
  RefusedModulesWhereStops,
  ReadsDerivedCalls,
  DerivesReadCalls,
  StopsAtRefusedCalls,
  RefusedCallsWhereStops,
};

/// A list of terminals is derived as at most one module, places included.
pub fn one_module()
    ensures { OneModule }
{}

/// A list of terminals is derived as at most one call.
pub fn one_call()
    ensures { OneCall }
{}

/// A list of terminals is one module within a limit of levels or is refused, and where it is refused it is no module, the
/// fault and its place are one.
pub fn one_answer()
    ensures some { SomeModuleAnswer }
    ensures one { OneModuleAnswer }
    ensures none { RefusedDerivesNoModule }
{}

/// A list of terminals is one call within a limit of levels or is refused, and where it is refused it is no call, the fault and
/// its place are one.
pub fn one_call_answer()
    ensures some { SomeCallAnswer }
    ensures one { OneCallAnswer }
    ensures none { RefusedDerivesNoCall }
{}

/// The machine ends with a module, and nothing else on its stack, if and only if the grammar derives that module from the
/// terminals, whatever the leave. Within a limit of levels it stops if and only if the grammar refuses them, for the same reason
/// and at the same place.
pub fn machine_reads_modules()
    ensures derived { ReadsDerivedModules }
    ensures read { DerivesReadModules }
    ensures refused { StopsAtRefusedModules }
    ensures stopped { RefusedModulesWhereStops }
{}

/// The same of calls.
pub fn machine_reads_calls()
    ensures derived { ReadsDerivedCalls }
    ensures read { DerivesReadCalls }
    ensures refused { StopsAtRefusedCalls }
    ensures stopped { RefusedCallsWhereStops }
{}
