// The names of a store, read from a file.

use model::limits;
use model::node::Name;
use std::alloc::{AllocError, Global};
use thiserror::Error;

// Why a text is no list of names.
#[derive(Debug, Drop, Error)]
pub(crate) enum NamesError {
    #[error("the name on line {0} is out of order, or one too many")]
    Line(usize),
    #[error(transparent)]
    Memory(#[from(alloc)] AllocError),
}

// The names of a store: the name n is the n-th, from 0.
#[derive(Drop)]
pub(crate) struct Names {
    texts: Vec<String>,
}

impl Names {
    // The names of a file, one to a line: the first is empty, and they ascend by their bytes.
    pub(crate) fn parse(alloc: Global, text: &str) -> Result<Names, NamesError> {
        let mut texts: Vec<String> = Vec::new(alloc);
        for (i, line) in text.lines().enumerate() {
            let follows = match texts.last() {
                Some(before) => before.as_str() < line,
                None => line.is_empty(),
            };
            if !follows || i >= limits::NAMES as usize {
                return Err(NamesError::Line(i.saturating_add(1)));
            }
            texts.push(String::from_str(alloc, line)?)?;
        }
        Ok(Names { texts })
    }

    // The text of a name.
    pub(crate) fn text(&self, name: Name) -> Option<&str> {
        self.texts.get(name as usize).map(String::as_str)
    }
}
