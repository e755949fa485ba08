// A form in words: a line for each kind, and a line for each of its ways.
use forms::{FormView, Place, Way, WayView};
use std::io;

pub(crate) fn print_form(rt: &HostRuntime, form: FormView<'_>) -> io::Result<()> {
    // By number: a kind is its number, which is printed.
    for kind in 0..form.kinds() {
        let none = if form.ways(kind) == 0 { " no way" } else { "" };
        println!(rt; "kind {kind}:{none}")?;
        for way in form.ways_of(kind) {
            print_way(rt, way)?;
        }
    }
    Ok(())
}

fn print_way(rt: &HostRuntime, way: WayView<'_>) -> io::Result<()> {
    match way.read() {
        Way::Number { from, to } => println!(rt; "  a number from {from} to {to}"),
        Way::List { kind, least, most } => println!(rt;
            "  a list of {least} to {most} of kind {kind}"
        ),
        Way::Record { places } => {
            print!(rt; "  a record of")?;
            for (index, place) in way.places().enumerate() {
                print_place(rt, index, place)?;
            }
            println!(rt; "{}", if places == 0 { " no fields" } else { "" })
        }
    }
}

// A place, behind a comma unless it is the first.
fn print_place(rt: &HostRuntime, index: usize, place: Place) -> io::Result<()> {
    let comma = if index == 0 { " " } else { ", " };
    let need = if place.must { "must" } else { "may" };
    let name = place.name;
    let kind = place.kind;
    print!(rt; "{comma}{name}: kind {kind} ({need})")
}
