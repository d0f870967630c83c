// The image of a module whose one function gives a sum.
//
// Promises: `sum_image` gives exactly the image of the definition `image_for`, and the theorem on it: the machine that is
// loaded with the image and the call `'main'()` ends with the plain sum, within the steps that a run has.
//
// May touch: memory alone.
//
// Files:
//   limits.rt   heap, stack and steps of a run
//   code.rt     the code of a sum
//   image.rt    `sum_image` and `main_call`
//   tests.rt    the tests
#![tactic(auto)]

mod code;
pub mod image;
pub mod limits;
#[cfg(test)]
mod tests;

pub use image::{main_call, sum_image};
