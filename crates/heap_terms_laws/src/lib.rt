// What holds of terms in the words of the heap.
//
// Compiled code builds words and knows nothing of terms; a service is handed a word and finds the term for which it stands. These
// laws are the way from the one to the other. `StandsIn` of heap_terms says by a term's structure that a word stands for it, as code
// that builds the term can show step by step. `term_at` of heap_terms follows a word, as a service does. The two agree, what stands
// goes on to stand while code writes behind the words that are used, and the words that are built of a constant stand for its term.
// The crate's functions have no bodies: each states a law.
//
// Promises: words that are built stand for their terms, and a word has the term for which it stands.
//
// May touch: nothing: it has no code.
//
// Files:
//   standing.rt   words and their terms, and what a prefix of a heap stands for
//   objects.rt    lists, tuples and funs that are put behind the words that are used
//   constants.rt  the words of constants
#![tactic(auto)]

pub mod constants;
pub mod objects;
pub mod standing;
