// Prints the published table of document 01 as a Graphviz graph. Which edges there are is asked of `table::next_state`;
// only names and the look of the drawing are written here.
#![tactic(auto)]

mod cells;
mod lines;
mod names;
mod note;

use crate::lines::Lines;
use crate::names::State;
use crate::note::GREY;
use std::io;
use std::io::Write;
use table::states;

fn main(rt: HostRuntime) -> io::Result<()> {
    draw(&mut rt.stdout())
}

fn draw<W: Write>(out: &mut W) -> io::Result<()> {
    writeln!(out, "digraph table {{")?;
    look(out)?;
    nodes(out)?;
    edges(out)?;
    note::draw(out)?;
    side_by_side(out, states::WAIT_FOR_RA, states::CLOSED_LOCKED)?;
    side_by_side(
        out,
        states::WAIT_FOR_RA_PROVER,
        states::WAIT_FOR_DAT_AND_RA_VERIFIER,
    )?;
    writeln!(out, "}}")
}

fn look<W: Write>(out: &mut W) -> io::Result<()> {
    defaults(
        out,
        "graph",
        "rankdir=TB splines=true nodesep=0.19 ranksep=0.4 pad=0.05",
    )?;
    defaults(
        out,
        "node",
        "shape=box style=\"rounded,filled\" margin=\"0.1,0.05\" color=\"#34517f\"",
    )?;
    defaults(out, "edge", "arrowsize=0.7 color=\"#34517f\"")?;
    writeln!(
        out,
        "  label=\"An event that is not shown in a state is ignored there; so is a report or timeout that is not live, and a DATA or ACK with another bit.\";"
    )
}

fn defaults<W: Write>(out: &mut W, kind: &str, attributes: &str) -> io::Result<()> {
    writeln!(
        out,
        "  {kind} [fontname=\"Helvetica,Arial,sans-serif\" fontsize=10 {attributes}];"
    )
}

// Puts two states into one row: left to Graphviz, more edges cross.
fn side_by_side<W: Write>(out: &mut W, one: u32, other: u32) -> io::Result<()> {
    writeln!(out, "  {{rank=same {one} {other}}};")
}

// From the last to the first, since fewer edges then cross.
fn nodes<W: Write>(out: &mut W) -> io::Result<()> {
    for state in (states::CLOSED_UNLOCKED..=states::CLOSED_LOCKED).rev() {
        node(out, state)?;
    }
    Ok(())
}

fn node<W: Write>(out: &mut W, state: u32) -> io::Result<()> {
    let fill = fill(state);
    let name = State(state);
    let lines = Lines {
        from: state,
        to: state,
    };
    write!(out, "  {state} [fillcolor=\"{fill}\" label=<")?;
    writeln!(
        out,
        "<TABLE BORDER=\"0\" CELLSPACING=\"0\" CELLPADDING=\"1\">"
    )?;
    writeln!(
        out,
        "    <TR><TD><FONT POINT-SIZE=\"12\"><B>{name}</B></FONT></TD></TR>"
    )?;
    writeln!(out, "{lines}  </TABLE>>];")
}

// One colour each for the closed states, those without a current token, those that move data, and the rest.
fn fill(state: u32) -> &'static str {
    match state {
        states::CLOSED_UNLOCKED | states::CLOSED_LOCKED => "#eeeeee",
        states::WAIT_FOR_DAT_AND_RA | states::WAIT_FOR_DAT_AND_RA_VERIFIER => "#fdf1dc",
        states::ESTABLISHED | states::WAIT_FOR_ACK => "#e3f3e3",
        _ => "#e9f0fa",
    }
}

fn edges<W: Write>(out: &mut W) -> io::Result<()> {
    for from in states::CLOSED_UNLOCKED..=states::CLOSED_LOCKED {
        for to in states::CLOSED_UNLOCKED..=states::CLOSED_LOCKED {
            edge(out, from, to)?;
        }
    }
    Ok(())
}

fn edge<W: Write>(out: &mut W, from: u32, to: u32) -> io::Result<()> {
    let lines = Lines { from, to };
    if from == to || lines.is_empty() {
        return Ok(());
    }
    write!(out, "  {from} -> {to} [label=\"{lines}\"")?;
    if to == states::CLOSED_LOCKED {
        write!(out, " {GREY}")?;
    }
    writeln!(out, "];")
}
