//! The graph that the stages share, beside the replies of the one-thread object and its nodes.
use crate::wrong::Wrong;
use pf_edits::{EditsError, WorkGraph};
use pf_history::{Command, Reply};
use pf_model::{EditError, Node, NodeView};
use plain_graph::Graph;

fn replies_to_edit(answer: Result<(), EditError>, reply: &Reply) -> bool {
    match (answer, reply) {
        (Ok(()), Reply::Done) => true,
        (Err(EditError::Fault(fault)), Reply::Refused(other)) => fault == *other,
        _ => false,
    }
}

fn replies_to_merge(answer: Result<(), EditsError>, reply: &Reply) -> bool {
    match (answer, reply) {
        (Ok(()), Reply::Done) => true,
        (Err(EditsError::Fault { place, fault }), Reply::RefusedAt(at, other)) => {
            place == *at && fault == *other
        }
        _ => false,
    }
}

/// Whether the graph answers this reply to a command.
pub fn replies(graph: &mut WorkGraph, command: &Command, reply: &Reply) -> bool {
    if graph.next_serial() > 1_000 || graph.time() > 1_000 || command.edit_count() > 1_000 {
        return false;
    }
    if !command.fits() {
        return false;
    }
    match command {
        Command::Edit(e) => replies_to_edit(graph.edit(e), reply),
        Command::Merge(merge) => replies_to_merge(graph.edits(&merge.edits), reply),
        Command::View(_, _) | Command::Sync(_) => true,
        Command::Frame => {
            graph.next_frame();
            true
        }
    }
}

fn is_same(a: Option<&Node>, b: Option<&Node>) -> bool {
    match (a, b) {
        (Some(a), Some(b)) => {
            a.serial == b.serial
                && a.born == b.born
                && a.children.as_slice() == b.children.as_slice()
        }
        (None, None) => true,
        _ => false,
    }
}

/// The two graphs have the same nodes with the same children.
pub fn same_nodes(working: &WorkGraph, plain: &Graph) -> Result<(), Wrong> {
    for id in 0..=u16::MAX {
        if !is_same(working.node(id), plain.node(id)) {
            return Err(Wrong::Node(id));
        }
    }
    Ok(())
}
