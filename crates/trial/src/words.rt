// Faults in words.

use model::fault::{Fault, Layer, Refusal};
use std::fmt;

// Shows a fault, or a part of one, in words.
#[derive(Clone, Copy)]
pub(crate) struct InWords<T>(pub(crate) T);

impl fmt::Display for InWords<Refusal> {
    fn fmt<W: fmt::Write>(&self, f: &mut fmt::Formatter<W>) -> fmt::Result {
        f.write_str(match self.0 {
            Refusal::Malformed => "Malformed, the layout is broken",
            Refusal::Limit => "Limit, a limit is passed",
            Refusal::IllFormedSchema => "IllFormedSchema, the schema is not well formed",
            Refusal::IllFormedTypeEnv =>
                "IllFormedTypeEnv, the action is undeclared or has no closed record as context",
            Refusal::UnsupportedFeature => "UnsupportedFeature, a type is not taken",
            Refusal::UnableToSymbolizeValue =>
                "UnableToSymbolizeValue, a value does not go with its type",
            Refusal::NonConforming => "NonConforming, the check fails",
            Refusal::Full => "Full, there is no room",
            Refusal::NotStored => "NotStored, there is no such entity or place",
            Refusal::IllTypedWalk => "IllTypedWalk, a step does not go with its type",
        })
    }
}

// What a layer is, and what its places count.
impl fmt::Display for InWords<Layer> {
    fn fmt<W: fmt::Write>(&self, f: &mut fmt::Formatter<W>) -> fmt::Result {
        f.write_str(match self.0 {
            Layer::Image => "image, byte",
            Layer::Schema => "schema, row",
            Layer::Request => "request, node",
            Layer::Entity => "entity, node",
            Layer::Walk => "walk, step",
        })
    }
}

impl fmt::Display for InWords<Fault> {
    fn fmt<W: fmt::Write>(&self, f: &mut fmt::Formatter<W>) -> fmt::Result {
        let Fault {
            refusal,
            layer,
            entity,
            place,
        } = self.0;
        write!(
            f,
            "refused: {} ({}), ",
            u32::from(refusal),
            InWords(refusal)
        )?;
        write!(f, "layer {} ({} {place})", u32::from(layer), InWords(layer))?;
        if entity > 0 {
            write!(f, " of the entity {entity}")?;
        }
        Ok(())
    }
}
