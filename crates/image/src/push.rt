// Numbers, nodes and headers as bytes behind others.
ghost use Rattle.std.specs.Prelude.{◌≡◌, ◌≤◌, OnOk};
ghost use Rattle.std.specs.Int.{w64};
ghost use Rattle.std.proofs.Common.{of_z};
ghost use Rattle.model.specs.Nodes.{FitsParts};
ghost use Rattle.model.specs.Stores.{AllFitParts};
ghost use Rattle.model.specs.Images.{low_bytes, node_bytes, joined};
ghost use Rattle.image.specs.Pushes.{Pushed, header_bytes};

use crate::frame::Header;
use model::node::Node;
use std::alloc::AllocError;

// The four bytes of a u32.
pub(crate) fn push_u32(out: &mut Vec<u8>, n: u32) -> Result<(), AllocError>
    ensures { Pushed result out.old.items (low_bytes 4 n) out.new.items }
{
    out.extend_from_slice(&n.to_le_bytes())
}

// The eight bytes of an i64, by a function of its own, since `to_le_bytes` belongs to no trait.
fn push_i64(out: &mut Vec<u8>, n: i64) -> Result<(), AllocError>
    ensures { Pushed result out.old.items (low_bytes 8 (of_z w64 n)) out.new.items }
{
    out.extend_from_slice(&n.to_le_bytes())
}

// The 24 bytes of a node. As every node in memory, it fits the sizes of its parts.
fn push_node(out: &mut Vec<u8>, node: Node) -> Result<(), AllocError>
    ensures pushed { Pushed result out.old.items (node_bytes node) out.new.items }
    ensures fitting { FitsParts node }
{
    push_u32(out, node.kind)?;
    push_u32(out, node.field)?;
    push_u32(out, node.a)?;
    push_u32(out, node.b)?;
    push_i64(out, node.number)
}

// Nodes, one after another.
pub(crate) fn push_nodes(out: &mut Vec<u8>, nodes: &[Node]) -> Result<(), AllocError>
    ensures pushed { Pushed result out.old.items (joined node_bytes nodes.now) out.new.items }
    ensures fitting { OnOk result (AllFitParts nodes.now) }
{
    for node in nodes {
        push_node(out, *node)?;
    }
    Ok(())
}

// The four fields of a header.
pub(crate) fn push_header(out: &mut Vec<u8>, header: Header) -> Result<(), AllocError>
    requires { header.entities ≤ 1024 }
    ensures { Pushed result out.old.items (header_bytes header.entities header.nodes) out.new.items }
{
    push_u32(out, header.entities)?;
    push_u32(out, header.nodes)?;
    push_u32(out, header.entry_offset(0) as u32)?;
    push_u32(out, header.node_offset(0) as u32)
}
