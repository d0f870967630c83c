// What a text of Core Erlang is made of below its tokens: bytes, places, characters and escapes.
//
// Promises: each function says what stands at the beginning of a text: how many bytes it has, and what it means. `ill_formed_from` finds
// the first byte that isn't UTF-8. What characters, escapes, quotes and numbers are spelled like is in specs/Characters.antt and
// specs/Numbers.antt, and laws.rt ties the functions to it: what is read is what is spelled.
//
// May touch: memory alone, for code points.
//
// Files:
//   bytes.rt        kinds of bytes, counted at the beginning of a text, and numbers that digits stand for
//   place.rt        places in a text
//   utf8.rt         the first byte of a text that isn't UTF-8
//   escape.rt       escapes
//   code_point.rt   code points, as themselves and by escapes
//   quoted.rt       what stands between quotes
//   fraction.rt     what makes a float of an integer
//   laws.rt         what is read is what is spelled
#![tactic(auto)]

pub mod bytes;
pub mod code_point;
pub mod escape;
pub mod fraction;
pub mod laws;
pub mod place;
pub mod quoted;
pub mod utf8;
