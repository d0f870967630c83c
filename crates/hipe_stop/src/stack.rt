// The stack's pages, written before anything else asks for memory.
//
// The system gives a page of the stack when it is first written, and ends the program by a signal where it has none left. So a program
// under a limit of memory writes the pages that it may need while the heap is still small: afterwards only the heap can be out of
// memory, and that is an answer.
ghost use Rattle.std.specs.Prelude.{◌≡◌, true};

use std::rt::Env;

// One page on each level, of which a byte is read after the levels below are written, so that each page stands until then.
#[inline(never)]
fn written(pages: u32, value: u8) -> u8
    ensures { result ≡ value }
{
    if pages == 0 {
        return value;
    }
    let page = [value; 4096];
    let below = written(pages - 1, value);
    page[below as usize]
}

/// Writes `pages` pages of 4 KiB below the caller's frame, and is then true. The byte that it writes is known only when the program
/// runs, so that no compiler can leave the pages out.
///
/// A program calls it before it asks for memory. Where the limit of memory is too small for the pages themselves, the system ends the
/// program here by a signal.
pub fn stack_is_there<R: Env>(rt: &R, pages: u32) -> bool
    ensures { result ≡ true }
{
    let mut start = [0; 1];
    let value = match rt.arg(0, &mut start) {
        Ok(_) => 1,
        Err(_) => start[0],
    };
    written(pages, value) == value
}
