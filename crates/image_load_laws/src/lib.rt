// What holds of a program in memory, before its first instruction.
//
// A run begins with the words of its arguments. They stand for the constants of the call: whoever follows such a word, as a service
// does, finds the constant's term. The crate's function has no body: it states the law.
//
// Promises: the words with which a run begins stand for the constants of its call.
//
// May touch: nothing: it has no code.
//
// Files: none beside this one.
#![tactic(auto)]

ghost use Rattle.image_load_laws.specs.Arguments.{ConstantsStand};

/// Where the run is ready, the word of each argument stands for the constant of the call at its place, in the heap with which the
/// run begins and with the symbols of the program and of the call. The first four words are in registers and the others in the
/// argument area.
pub fn constants_stand()
    ensures { ConstantsStand }
{}
