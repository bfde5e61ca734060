//! The eight exhibits: the example file has the bytes of the worked example.
ghost use Rattle.std.specs.Prelude.{◌≡◌};
ghost use Rattle.control.specs.Examples.{eight_file};

use std::io;
use std::io::Read;

/// The bytes from which the worked example is computed.
fn worked_example() -> &'static [u8]
    ensures { result.now ≡ eight_file }
{
    b"Package: map\nDepends: timeline, font | font-lite\n\nPackage: timeline\nDepends: map\n\nPackage: font\n\nPackage: font-lite\n\nPackage: loop\nDepends: player\nConflicts: timeline\n\nPackage: player\nDepends: codec-a | codec-b\n\nPackage: codec-a\nConflicts: codec-b\n\nPackage: codec-b\n"
}

/// Says whether the input has them.
pub fn example_trial(
    rt: &(impl Print + AllocGlobal),
    mut input: impl Read + Drop,
) -> io::Result<()> {
    let mut text = Vec::new(rt.alloc());
    input.read_to_end(&mut text)?;
    println!(rt; "example: {}", text.as_slice() == worked_example())
}
