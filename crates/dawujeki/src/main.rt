//! Says what the eight exhibits of the rule book come to.
#![tactic(auto)]

ghost use Rattle.std.specs.Prelude.{◌≡◌, IfOk, OnOk};
ghost use Rattle.catalogue.specs.Drafts.{unrelated};
ghost use Rattle.catalogue.specs.Examples.{eight};

use catalogue::OpenCatalogue;
use levels::{KernelSize, Pile};
use refusals::{Failure, Refusal};
use sets::ComponentSet;
use std::alloc::Global;

/// The exhibits: each is numbered like its component.
#[derive(Clone, Copy)]
enum Exhibit {
    Map,
    Timeline,
    Font,
    FontLite,
    FilmLoop,
    Player,
    CodecA,
    CodecB,
}

use Exhibit::{CodecA, CodecB, FilmLoop, Font, FontLite, Map, Player, Timeline};

/// How many there are.
const EXHIBITS: usize = 8;

/// What each needs, and what it clashes with.
fn relate(catalogue: &mut OpenCatalogue) -> Result<(), Refusal>
    requires { catalogue.old ≡ unrelated 8 }
    ensures { OnOk result (catalogue.new ≡ eight) }
{
    let fonts = ComponentSet::from([Font as usize, FontLite as usize]);
    let codecs = ComponentSet::from([CodecA as usize, CodecB as usize]);
    catalogue.add_need(Map as usize, ComponentSet::from([Timeline as usize]))?;
    catalogue.add_need(Map as usize, fonts)?;
    catalogue.add_need(Timeline as usize, ComponentSet::from([Map as usize]))?;
    catalogue.add_need(FilmLoop as usize, ComponentSet::from([Player as usize]))?;
    catalogue.add_need(Player as usize, codecs)?;
    catalogue.add_clash(FilmLoop as usize, Timeline as usize)?;
    catalogue.add_clash(CodecA as usize, CodecB as usize)?;
    Ok(())
}

/// The eight exhibits.
fn exhibits(heap: Global) -> Result<OpenCatalogue, Failure>
    ensures { IfOk result (λ c. c ≡ eight) }
{
    let mut catalogue = OpenCatalogue::new(heap)?;
    catalogue.add_components(EXHIBITS)?;
    relate(&mut catalogue)?;
    Ok(catalogue)
}

/// What the exhibits come to, with no reduction over them.
fn kernel_size(heap: Global) -> Result<KernelSize, Failure>
    ensures { IfOk result (λ k. (k.ground ≡ 8) × (k.components ≡ 8) × (k.clauses ≡ 5)) }
{
    let pile = Pile::on(exhibits(heap)?.close());
    Ok(pile.kernel_size())
}

fn main(rt: HostRuntime) -> anyhow::Result<()> {
    let size = kernel_size(rt.alloc())?;
    rt.println(size)?;
    Ok(())
}
