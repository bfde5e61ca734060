//! Runs the calls of sets, sheets and catalogues on small cases and at their limits, and prints what they answer.
#![tactic(auto)]

use catalogue::OpenCatalogue;
use levels::Level;
use refusals::{Failure, Refusal};
use sets::ComponentSet;
use sheets::Sheet;
use std::alloc::Global;
use std::io;

/// Sets: members in order, the operators, and numbers at the limit.
fn print_sets(rt: &impl Print) -> io::Result<()> {
    let last = ComponentSet::LIMIT - 1;
    let a = ComponentSet::from([3, 0, last]);
    let b = ComponentSet::from([3, 5]);
    println!(rt; "sets {a:?} {b:?} {:?} {:?} {:?}", a | b, a & b, a - b)?;
    println!(rt; "limit {:?} {:?}", b.with(last + 1), b.without(last + 1))?;
    println!(rt;
        "full {:?} {}",
        ComponentSet::full(4),
        ComponentSet::full(last + 9).len()
    )?;
    println!(rt; "first {:?} {:?}", b.first(), ComponentSet::empty().first())?;
    println!(rt;
        "tests {} {} {}",
        b.is_subset(a),
        b.intersects(a),
        a.contains(last + 1)
    )
}

/// 0 needs 1 and 1 needs 0, among so many components. `level_trials` has such a ring too: a library for these few lines would
/// be no plainer.
fn ring(heap: Global, components: usize) -> Result<OpenCatalogue, Failure> {
    let mut catalogue = OpenCatalogue::new(heap)?;
    catalogue.add_components(components)?;
    catalogue.add_need(0, ComponentSet::from([1]))?;
    catalogue.add_need(1, ComponentSet::from([0]))?;
    Ok(catalogue)
}

/// Health and support of the two rings.
fn print_health(rt: &impl Print, ground: &Sheet) -> io::Result<()> {
    println!(rt;
        "clear {:?} free {:?}",
        ground.clear_components(),
        ground.free_set()
    )?;
    println!(rt;
        "supported by 1 {:?}",
        ground.support(ComponentSet::from([1]))
    )?;
    let both = ground.is_healthy(ComponentSet::from([0, 1]));
    let half = ground.is_healthy(ComponentSet::from([0]));
    let none = ground.is_healthy(ComponentSet::empty());
    let outside = ground.is_healthy(ComponentSet::from([0, 1, 9]));
    println!(rt; "healthy {both} {half} {none} {outside}")
}

/// What a call of a catalogue answers at its limits.
fn print_refusals(rt: &(impl Print + AllocGlobal)) -> anyhow::Result<()> {
    let mut catalogue = OpenCatalogue::new(rt.alloc())?;
    catalogue.add_components(ComponentSet::LIMIT)?;
    println!(rt; "{:?}", catalogue.add_component())?;
    println!(rt;
        "{:?}",
        catalogue.add_need(ComponentSet::LIMIT, ComponentSet::from([0, 1]))
    )?;
    println!(rt;
        "{:?} {:?}",
        catalogue.add_clash(0, ComponentSet::LIMIT),
        catalogue.add_clash(7, 7)
    )?;
    println!(rt;
        "{:?} {:?}",
        catalogue.add_clash(7, 8),
        catalogue.add_clash(7, 8)
    )?;
    for _ in 0..Sheet::MAX_CLAUSES {
        catalogue.add_need(1, ComponentSet::from([2, 3]))?;
    }
    println!(rt; "{:?}", catalogue.add_need(1, ComponentSet::from([2, 3])))?;
    println!(rt;
        "{:?}",
        catalogue.add_need(ComponentSet::LIMIT, ComponentSet::from([2, 3]))
    )?;
    let closed = catalogue.close();
    println!(rt;
        "{:?} {:?} {:?}",
        closed.conflicts(7),
        closed.conflicts(8),
        closed.conflicts(9)
    )?;
    println!(rt;
        "{} {} {:?}",
        closed.size(),
        closed.clause_count(),
        closed.owner(511)
    )?;
    Ok(())
}

fn run(rt: &(impl Print + AllocGlobal)) -> anyhow::Result<()> {
    print_sets(rt)?;
    print_health(rt, ring(rt.alloc(), 2)?.close().sheet())?;
    let mut opposed = ring(rt.alloc(), 3)?;
    opposed.add_clash(1, 2)?;
    print_health(rt, opposed.close().sheet())?;
    print_refusals(rt)?;
    println!(rt;
        "{} {}",
        Refusal::NoComponent.number(),
        Refusal::NoComponent
    )?;
    Ok(())
}

fn main(rt: HostRuntime) -> anyhow::Result<()> {
    run(&rt)
}
