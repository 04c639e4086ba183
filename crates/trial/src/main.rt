//! trial IMAGE NAMES: takes the nodes of an image into a table, lists its entities in Cedar's notation, and then says how
//! the same image is refused with its last byte cut off.
#![tactic(auto)]

mod datetime;
mod extension;
mod listing;
mod names;
mod notation;
mod words;

use anyhow::{Context, anyhow};
use image::frame::{Header, check_frame};
use model::fault::Fault;
use model::limits;
use model::node::Node;
use names::Names;
use std::alloc::{AllocError, Global};
use std::process::ExitCode;
use std::{env, fmt, fs, io};
use store::store::Store;
use store::table::NodeTable;
use words::InWords;

// Prints what the program wants.
fn help(rt: &HostRuntime) -> io::Result<()> {
    println!(rt; "usage: trial IMAGE NAMES")?;
    println!(rt;
        "Lists the entities of the image of a store, whose names stand in NAMES, one to a line."
    )
}

// What is at fault, and why, in one message. A fault of a store or an image is no `Error`, so `context` does not take it.
fn at_fault(what: &str, why: impl fmt::Display + Drop) -> anyhow::Error {
    anyhow!("{what}: {why}")
}

// The nodes of an image and the first node of each run, as its header announces them: the two lists that a table is made of,
// by a rule of the project. They are all there, since the frame is whole.
fn nodes_of(
    alloc: Global,
    bytes: &[u8],
    header: Header,
) -> Result<(Vec<Node>, Vec<usize>), AllocError> {
    let nodes = (0..header.nodes)
        .filter_map(|j| header.node(bytes, j))
        .collect(alloc)?;
    let firsts = (0..header.entities)
        .filter_map(|k| header.first_node(bytes, k))
        .map(|first| first as usize)
        .collect(alloc)?;
    Ok((nodes, firsts))
}

// The run of the entity at a place of any store, in the buffer.
fn load<'b, S: Store>(
    store: &S,
    place: usize,
    buffer: &'b mut [Node],
) -> anyhow::Result<&'b [Node]> {
    let length = store
        .load(place, buffer)
        .map_err(|fault| at_fault("the store", InWords(fault)))?;
    buffer.get(..length).context("a run beyond its buffer")
}

// Prints all entities of a store, one to a line. A store is asked place by place.
fn list<S: Store>(rt: &HostRuntime, store: &S, names: &Names) -> anyhow::Result<()> {
    let mut buffer = vec![in rt.alloc(); Node::new(0, 0, 0, 0); limits::RUN_NODES]?;
    for place in 0..store.count() {
        let run = load(store, place, buffer.as_mut_slice())?;
        rt.println(listing::entity_line(rt.alloc(), run, names)?)?;
    }
    Ok(())
}

// Prints how the image is refused with its last byte cut off.
fn cut(rt: &HostRuntime, bytes: &[u8]) -> io::Result<()> {
    let Some((_, kept)) = bytes.split_last() else {
        return Ok(());
    };
    let count = kept.len();
    match check_frame(kept) {
        Ok(_) => println!(rt; "the first {count} bytes: accepted"),
        Err(fault) => println!(rt; "the first {count} bytes: {}", InWords(fault)),
    }
}

// Lists the store of the image with these names, and cuts the image.
fn trial(rt: &HostRuntime, image: &str, names: &str) -> anyhow::Result<()> {
    let refused = |fault: Fault| at_fault(image, InWords(fault));
    let bytes = fs::read(rt, image).map_err(|e| at_fault(image, e))?;
    let text = fs::read_to_string(rt, names).map_err(|e| at_fault(names, e))?;
    let names = Names::parse(rt.alloc(), text.as_str())?;
    let header = check_frame(bytes.as_slice()).map_err(refused)?;
    let (nodes, firsts) = nodes_of(rt.alloc(), bytes.as_slice(), header)?;
    let table = NodeTable::open(nodes, firsts).map_err(|table| refused(table.fault))?;
    println!(rt; "{} entities, {} nodes", table.count(), header.nodes)?;
    list(rt, &table, &names)?;
    cut(rt, bytes.as_slice())?;
    Ok(())
}

// Lists what the arguments name.
fn run(rt: &HostRuntime) -> anyhow::Result<()> {
    let mut args = env::args(rt)?.skip(1);
    match (args.next(), args.next()) {
        (Some(image), Some(names)) => trial(rt, image.as_str(), names.as_str()),
        _ => {
            help(rt)?;
            Err(anyhow!("an image and a file of names are wanted"))
        }
    }
}

// A failure is told on the error output, and is the exit status.
fn main(rt: HostRuntime) -> ExitCode {
    match run(&rt) {
        Ok(()) => ExitCode::SUCCESS,
        Err(e) => {
            let _ = eprintln!(rt; "trial: {e}");
            ExitCode::FAILURE
        }
    }
}
