//! Reads a control file from standard input and says what it comes to.
#![tactic(auto)]

ghost use Rattle.stanzas.specs.Views.{Answers};
ghost use Rattle.control_kernel.specs.Reports.{kernel_of};

use control::ControlFile;
use levels::{KernelSize, Pile};
use stanzas::Notes;
use std::alloc::Global;
use std::io;
use std::io::Read;
use texts::{ReadError, RefusedLine};

/// The input to its end, or one byte more than a file may have.
fn read_input(heap: Global, input: impl Read + Drop) -> io::Result<Vec<u8>> {
    let mut text = Vec::new(heap);
    input
        .take(Notes::MAX_BYTES as u64 + 1)
        .read_to_end(&mut text)?;
    Ok(text)
}

/// What the ground of a file comes to, with no reduction over it.
fn kernel_size(heap: Global, text: Vec<u8>) -> Result<KernelSize, ReadError>
    ensures { Answers (λ k. k) result (kernel_of text.items) }
{
    let pile = Pile::on(ControlFile::read(heap, text)?);
    Ok(pile.kernel_size())
}

fn run(rt: &(impl Print + AllocGlobal), input: impl Read + Drop) -> anyhow::Result<()> {
    match kernel_size(rt.alloc(), read_input(rt.alloc(), input)?) {
        Ok(size) => println!(rt; "{size}")?,
        Err(ReadError::Faulty(fault)) => println!(rt; "{}", RefusedLine(fault))?,
        Err(error) => return Err(error.into()),
    }
    Ok(())
}

fn main(rt: HostRuntime) -> anyhow::Result<()> {
    // The handle itself and not `reader`, which buffers once more, and asks first whether the input can go back.
    run(&rt, rt.stdin())
}
