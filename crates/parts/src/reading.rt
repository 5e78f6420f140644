// How a program reads its input.
ghost use Rattle.std.specs.Prelude.{◌≡◌, IfOk, IfSome};

use std::alloc::Global;
use std::io;
use std::io::Read;

// It takes no closure of what a program makes of the bytes: the call would have to require that the
// closure may be called, and no public call here requires anything of its callers.
/// All the bytes that are left to read.
pub fn read_all<R: Read + Drop>(heap: Global, mut input: R) -> io::Result<Vec<u8>>
    ensures { IfOk result (λ bytes. IfSome (R.remaining input) (λ left. bytes.items ≡ left)) }
{
    let mut bytes = Vec::new(heap);
    input.read_to_end(&mut bytes)?;
    Ok(bytes)
}
