// Entities in Cedar's notation.

use crate::extension::Extension;
use crate::names::Names;
use crate::notation::{key, quote};
use model::kind::{ENTITY_KIND, ValueKind};
use model::limits;
use model::node::{Name, Node};
use std::alloc::{AllocError, Global};
use std::slice::Iter;
use thiserror::Error;

// Why a run cannot be written.
#[derive(Debug, Drop, Error)]
pub(crate) enum ListingError {
    #[error("the node {0} is none of an entity")]
    Node(usize),
    #[error("the name {0} is not among the names")]
    Name(Name),
    #[error(transparent)]
    Memory(#[from(alloc)] AllocError),
}

// Writes a run, from its first node to its last.
#[derive(Drop)]
struct Writer<'a> {
    names: &'a Names,
    run: &'a [Node],
    // the nodes of the run that are not written yet
    rest: Iter<'a, Node>,
    out: String,
}

impl<'a> Writer<'a> {
    // The index of the next node in the run.
    fn index(&self) -> usize {
        self.run.len().saturating_sub(self.rest.len())
    }

    // The next node, which stays the next one.
    fn peek(&self) -> Result<Node, ListingError> {
        let next = self.rest.as_slice().first();
        next.copied().ok_or(ListingError::Node(self.index()))
    }

    // Takes the next node.
    fn next(&mut self) -> Result<Node, ListingError> {
        let index = self.index();
        self.rest.next().copied().ok_or(ListingError::Node(index))
    }

    // The text of a name.
    fn name(&self, name: Name) -> Result<&'a str, ListingError> {
        self.names.text(name).ok_or(ListingError::Name(name))
    }

    // The uid that a node has.
    fn uid(&mut self, node: Node) -> Result<(), ListingError> {
        let type_name = self.name(node.a)?;
        let id = self.name(node.b)?;
        self.out.push_str(type_name)?;
        self.out.push_str("::")?;
        quote(&mut self.out, id)?;
        Ok(())
    }

    // A value, with at most so much nesting.
    #[cycle(value)]
    fn value(&mut self, nesting: usize) -> Result<(), ListingError> {
        let index = self.index();
        let node = self.next()?;
        match ValueKind::try_from(node.kind) {
            Ok(ValueKind::Bool) => write!(self.out, "{}", node.number != 0)?,
            Ok(ValueKind::Long) => write!(self.out, "{}", node.number)?,
            Ok(ValueKind::String) => {
                let text = self.name(node.a)?;
                quote(&mut self.out, text)?;
            }
            Ok(ValueKind::Uid) => self.uid(node)?,
            Ok(ValueKind::Extension) => {
                let extension = Extension::from_node(node).ok_or(ListingError::Node(index))?;
                write!(self.out, "{extension}")?;
            }
            Ok(ValueKind::Set) if nesting > 1 => self.set(node.a, nesting - 1)?,
            Ok(ValueKind::Record) if nesting > 1 => self.fields(node.a, nesting - 1)?,
            _ => return Err(ListingError::Node(index)),
        }
        Ok(())
    }

    // The elements of a set. How many come is read from a node; `i` only tells where a separator stands, here and in the two
    // loops below: each has brackets of its own, and one loop that takes the item as a closure would be no shorter.
    #[cycle(value)]
    fn set(&mut self, count: u32, nesting: usize) -> Result<(), ListingError> {
        self.out.push('[')?;
        for i in 0..count {
            if i > 0 {
                self.out.push_str(", ")?;
            }
            self.value(nesting)?;
        }
        self.out.push(']')?;
        Ok(())
    }

    // The fields of a record, or the tags of an entity.
    #[cycle(value)]
    fn fields(&mut self, count: u32, nesting: usize) -> Result<(), ListingError> {
        self.out.push('{')?;
        for i in 0..count {
            self.out.push_str(if i > 0 { ", " } else { " " })?;
            let name = self.name(self.peek()?.field)?;
            key(&mut self.out, name)?;
            self.out.push_str(": ")?;
            self.value(nesting)?;
        }
        self.out.push_str(if count > 0 { " }" } else { "}" })?;
        Ok(())
    }

    // The ancestors of an entity.
    fn ancestors(&mut self, count: u32) -> Result<(), ListingError> {
        for i in 0..count {
            self.out.push_str(if i > 0 { ", " } else { " in [" })?;
            let node = self.next()?;
            self.uid(node)?;
        }
        if count > 0 {
            self.out.push(']')?;
        }
        Ok(())
    }

    // The whole entity.
    fn entity(&mut self) -> Result<(), ListingError> {
        let index = self.index();
        let head = self.next()?;
        if head.kind != ENTITY_KIND {
            return Err(ListingError::Node(index));
        }
        let tags = u32::try_from(head.number).map_err(|_| ListingError::Node(index))?;
        self.uid(head)?;
        self.out.push(' ')?;
        self.value(limits::NESTING)?;
        self.ancestors(head.field)?;
        if tags > 0 {
            self.out.push_str(" tags ")?;
            self.fields(tags, limits::NESTING)?;
        }
        Ok(())
    }
}

// The entity of a run, on one line.
pub(crate) fn entity_line(
    alloc: Global,
    run: &[Node],
    names: &Names,
) -> Result<String, ListingError> {
    let mut writer = Writer {
        names,
        run,
        rest: run.iter(),
        out: String::new(alloc),
    };
    writer.entity()?;
    Ok(writer.out)
}
