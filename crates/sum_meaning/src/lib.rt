// What a module whose one function gives a sum means.
//
// It says what is meant where the code of a sum is said to give what the module says: the language's own meaning of the call returns
// the sum of the integers, with which the machine ends too (`sum_image` of `sum_code`). The crate's function has no body: it states the
// law. It goes when modules of sums are no longer a form of their own.
//
// Promises: every run of `'main'()` of a good module of a sum returns the plain sum, prints nothing and builds nothing.
//
// May touch: nothing: it has no code.
//
// Files: none beside this one.
#![tactic(auto)]

ghost use Rattle.sum_meaning.specs.Returning.{SumsAreReturned};

/// The call of `'main'/0` of a good module with a sum returns the value of the sum, however little fuel there is, and neither prints
/// nor builds anything.
pub fn sums_are_returned()
    ensures { SumsAreReturned }
{}
