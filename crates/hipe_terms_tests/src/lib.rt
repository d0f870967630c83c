// The tests of terms: orders, texts and words by hand.
//
// Promises: nothing.
//
// May touch: memory alone.
//
// Files:
//   tests.rt   the tests
//   words.rt   constants whose words are known
#![tactic(auto)]

#[cfg(test)]
mod tests;
#[cfg(test)]
mod words;
