// What the services behind `syscall` do with words that stand for terms.
//
// machine_services says what a service does with words; compiled code knows for which terms its words stand. These laws say what a
// service then gives in terms of terms, as the meaning of the built-in functions wants it: the end of a run with a term, a term
// displayed, the order of two terms, the length of a list, and the words of an appended list or of a copied tuple, built behind the
// words that are used. The crate's functions have no bodies: each states a law.
//
// Promises: what each service gives in terms of the terms for which its words stand.
//
// May touch: nothing: it has no code.
//
// Files:
//   laws.rt    a law for each service that is handed words
#![tactic(auto)]

pub mod laws;
