ghost use Rattle.std.specs.Prelude.{◌≡◌};
ghost use Rattle.model.specs.Bytes.{u32_at};
ghost use Rattle.model.specs.Kinds.{Known};
ghost use Rattle.model.specs.Options.{mapped};
ghost use Rattle.model.specs.Images.{image_view};
ghost use Rattle.image.specs.Views.{shown, viewed};

use crate::bytes::{chunk, u32_at};
use crate::image::Image;
use crate::layout::Layout;
use crate::reads::Reader;
use model::kind::ValueKind;

// The 24 bytes of a node of an image, and the offset at which they stand.
#[derive(Clone, Copy)]
pub struct NodeBytes<'i> {
    pub bytes: &'i [u8; 24],
    pub offset: usize,
}

// A node of an image as what it is.
#[derive(Clone, Copy)]
pub enum View<'i> {
    Bool(NodeBytes<'i>),
    Long(NodeBytes<'i>),
    String(NodeBytes<'i>),
    Uid(NodeBytes<'i>),
    Set(NodeBytes<'i>),
    Record(NodeBytes<'i>),
    Extension(NodeBytes<'i>),
    // the head of an entity
    Entity(NodeBytes<'i>),
}

impl<'i> NodeBytes<'i> {
    // The node by its kind.
    fn view(self) -> View<'i>
        requires { Known (u32_at self.bytes.now 0) }
        ensures { shown result ≡ viewed (u32_at self.entry.bytes.now 0) self.entry.bytes.now self.entry.offset }
    {
        let bytes = self.bytes;
        match ValueKind::try_from(u32_at(bytes, 0)) {
            Ok(ValueKind::Bool) => View::Bool(self),
            Ok(ValueKind::Long) => View::Long(self),
            Ok(ValueKind::String) => View::String(self),
            Ok(ValueKind::Uid) => View::Uid(self),
            Ok(ValueKind::Set) => View::Set(self),
            Ok(ValueKind::Record) => View::Record(self),
            Ok(ValueKind::Extension) => View::Extension(self),
            Err(_) => View::Entity(self),
        }
    }
}

impl<'i> Reader<'i> {
    // The node `j`, where there is one.
    fn view(&self, j: usize) -> Option<View<'i>>
        ensures { mapped shown result ≡ image_view self.now.layout.bytes.now j }
    {
        let Layout { bytes, header } = self.layout;
        if j >= header.nodes as usize {
            return None;
        }
        let offset = header.node_offset(j as u32);
        let bytes = chunk(bytes, offset).unwrap();
        Some(NodeBytes { bytes, offset }.view())
    }
}

impl Image {
    // The node `j`, from 0, where there is one.
    pub fn view(&self, j: usize) -> Option<View<'_>>
        ensures { mapped shown result ≡ image_view self.now.bytes.items j }
    {
        self.reader().view(j)
    }
}
