// The nodes of a network and a junction's demands, as the dump writes them: docs/DUMP.md has the form.
#![tactic(auto)]

use std::io::Write;
use std::{fmt, io};
use stored_counts::Stored;
use stored_parts::Part;
use stored_records::NodeKind;
use write_text::{Bits, Id, OrDash, Pair};

fn show_demands<W: Write>(out: &mut W, stored: Stored, node: usize) -> io::Result<()> {
    for k in 0..stored.counts().demands {
        let d = stored_series::demand_at(stored, k);
        if d.node == node {
            let base = Bits(d.base);
            let pattern = write_text::name_in(stored.text, d.pattern);
            let index = OrDash(d.index);
            writeln!(out, "  demand {base} {pattern} {index}")?;
        }
    }
    Ok(())
}

// Only a junction is disabled.
fn show_node<W: Write>(out: &mut W, stored: Stored, i: usize) -> io::Result<()> {
    let node = stored_records::node_at(stored, i);
    let id = Id::of(stored.text, node.id);
    let place = OrDash(node.place.map(|place| Pair(place.x, place.y)));
    match node.kind {
        NodeKind::Junction(j) => {
            let elevation = Bits(j.elevation);
            let disabled = u8::from(j.disabled);
            let emitter = Bits(j.emitter);
            let demands = stored_parts::parts_of(stored, Part::Demand, i);
            writeln!(
                out,
                "node J {id} {elevation} {place} {disabled} {emitter} {demands}"
            )?;
            show_demands(out, stored, i)
        }
        NodeKind::Reservoir(r) => {
            let elevation = Bits(r.elevation);
            let pattern = write_text::name_in(stored.text, r.pattern);
            let index = OrDash(r.index);
            writeln!(out, "node R {id} {elevation} {place} 0 {pattern} {index}")
        }
        NodeKind::Tank(t) => {
            let elevation = Bits(t.elevation);
            let curve = write_text::name_in(stored.text, t.curve);
            writeln!(
                out,
                "node T {id} {elevation} {place} 0 {elevation} {} {} {} {} {} {curve} {}",
                Bits(t.initial),
                Bits(t.minimum),
                Bits(t.maximum),
                Bits(t.diameter),
                Bits(t.volume),
                u8::from(t.overflow)
            )
        }
    }
}

// Every node, in file order.
pub fn show_nodes<W: Write>(out: &mut W, stored: Stored) -> io::Result<()> {
    for i in 0..stored.counts().nodes {
        show_node(out, stored, i)?;
    }
    Ok(())
}
