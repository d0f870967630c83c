// What holds of all texts.

ghost use Rattle.core_reader.specs.Laws.{
  TerminalsMean,
  SomeAnswer,
  OneAnswer,
  RefusedReadsNone,
  SomeCallAnswer,
  OneCallAnswer,
  RefusedReadsNoCall,
};

/// The terminal of each token of a text stands where the token does, and has the number, the code points, the name or the mark
/// that the token's bytes spell: no value stands in for one that isn't there.
pub fn terminals_mean()
    ensures { TerminalsMean }
{}

/// A text reads as one module, places included, or it is refused, and where it is refused it reads as no module, the refusal
/// and its place are one.
pub fn one_answer()
    ensures some { SomeAnswer }
    ensures one { OneAnswer }
    ensures none { RefusedReadsNone }
{}

/// A text reads as one call or is none, at one place, and where it is none it reads as no call.
pub fn one_call_answer()
    ensures some { SomeCallAnswer }
    ensures one { OneCallAnswer }
    ensures none { RefusedReadsNoCall }
{}
