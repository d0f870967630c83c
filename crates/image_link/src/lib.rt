// The image of a program: the code of its functions, linked, with the names that it needs to run; and the bytes of an image.
//
// Promises: `link` puts the exit part and the functions' code one behind the other and fills each call with the displacement
// to its target (`linked` in `specs/Linking.antt`), or says that the code is too large; an `Image` keeps the rules of its fields
// (`IsImage`); and `image_bytes` gives the bytes of the format (`bytes_of` in `specs/Format.antt`).
//
// May touch: memory alone.
//
// Files:
//   numbers.rt  the numbers of the format
//   atoms.rt    a table of atoms with their numbers
//   names.rt    the names of a program: its atoms, functions and exports
//   code.rt     the code of one function, and the code that every program begins with
//   image.rt    the image and its functions
//   linking.rt  from code and names to the image
//   laws.rt     what holds of linked code
//   bytes.rt    from an image to its bytes
#![tactic(auto)]

pub mod atoms;
pub mod bytes;
pub mod code;
pub mod image;
pub mod laws;
pub mod linking;
pub mod names;
pub mod numbers;

pub use atoms::AtomTable;
pub use bytes::image_bytes;
pub use code::{CallSite, Code};
pub use image::{Function, Image, ImageParts};
pub use laws::{calls_lead, others_stay};
pub use linking::{LinkFault, link};
pub use names::{FunctionEntry, Names};
pub use numbers::VERSION;
