ghost use Rattle.std.specs.Prelude.{◌≡◌};
ghost use Rattle.model.specs.Orders.{Total};
ghost use Rattle.model.specs.Faults.{refusal_number, layer_number, whole_call, placed, of_entity, precedes as precedes_of, stands, keep_least, least_with};
ghost use Rattle.model.specs.Images.{fault_of};

// What is refused. The numbers are those that a host sees; the Rust's names where it has one.
#[derive(Clone, Copy, PartialEq, Eq, PartialOrd, Ord)]
pub enum Refusal {
    // an image or a run breaks its layout
    Malformed = 1,
    // a limit is passed, or a buffer is too short
    Limit = 2,
    // `close` finds a schema that is not well formed
    IllFormedSchema = 3,
    // the request type's action is undeclared, or its context is no closed record
    IllFormedTypeEnv = 4,
    // `of_type` meets a type that it does not take
    UnsupportedFeature = 6,
    // `from_value` has no rule
    UnableToSymbolizeValue = 9,
    // the check fails
    NonConforming = 10,
    // the pool, a term or a table has no room
    Full = 11,
    // no such standard entity, or no such place in a store
    NotStored = 12,
    // the type rules fail at a step of a walk
    IllTypedWalk = 13,
}

impl From<Refusal> for u32 {
    ghost from_gives = { λ refusal n. n ≡ refusal_number refusal };

    fn from(refusal: Refusal) -> u32 {
        refusal as u32
    }
}

// Where a fault lies, and so what its place counts.
#[derive(Clone, Copy, PartialEq, Eq, PartialOrd, Ord)]
pub enum Layer {
    // byte offsets from 0
    Image = 1,
    // rows from 1, types before actions
    Schema = 2,
    // nodes from 1
    Request = 3,
    // nodes from 1, of the entity at a place of its store
    Entity = 4,
    // steps from 1
    Walk = 5,
}

impl From<Layer> for u32 {
    ghost from_gives = { λ layer n. n ≡ layer_number layer };

    fn from(layer: Layer) -> u32 {
        layer as u32
    }
}

// A refusal with its layer and place. A fault about a whole call has both places 0. The parts stand in the order in which
// faults are compared. A host reads the four as numbers, so the place is no enum with a case for each layer.
#[derive(Clone, Copy, PartialEq, Eq, PartialOrd, Ord)]
pub struct Fault {
    pub refusal: Refusal,
    pub layer: Layer,
    // the entity's place in its store, from 0; 0 in every other layer
    pub entity: usize,
    pub place: usize,
}

impl Fault {
    // A fault about a whole call.
    pub fn whole_call(refusal: Refusal, layer: Layer) -> Fault
        ensures { result ≡ whole_call refusal layer }
    {
        Fault::at(refusal, layer, 0)
    }

    // A fault at a place that belongs to no stored entity.
    pub fn at(refusal: Refusal, layer: Layer, place: usize) -> Fault
        ensures { result ≡ placed refusal layer place }
    {
        Fault {
            refusal,
            layer,
            entity: 0,
            place,
        }
    }

    // A fault at a node of the entity at a place of its store.
    pub fn of_entity(refusal: Refusal, entity: usize, place: usize) -> Fault
        ensures { result ≡ of_entity refusal entity place }
    {
        Fault {
            refusal,
            layer: Layer::Entity,
            entity,
            place,
        }
    }

    // Faults order by number, layer, entity and place.
    #[tactic(auto, using(crate::proofs::DerivedOrder::derived))]
    pub fn precedes(&self, other: &Fault) -> bool
        ensures { result ≡ precedes_of self.now other.now }
    {
        self < other
    }

    // Of two faults, the one that stands: the lesser.
    #[tactic(auto, using(crate::proofs::DerivedOrder::lesser))]
    pub fn first(self, other: Fault) -> Fault
        ensures { result ≡ stands self other }
    {
        self.min(other)
    }

    // The least fault so far, and one more. It is an Option and no Result, since it is no answer yet: a check that ends
    // answers with a Result.
    pub fn keep_least(kept: Option<Fault>, fault: Fault) -> Option<Fault>
        ensures { result ≡ keep_least kept fault }
    {
        match kept {
            None => Some(fault),
            Some(least) => Some(least.first(fault)),
        }
    }

    // The least fault so far, and that of a check.
    pub fn keep_checked(kept: Option<Fault>, checked: Result<(), Fault>) -> Option<Fault>
        ensures { result ≡ least_with kept (fault_of checked) }
    {
        match checked {
            Ok(()) => kept,
            Err(fault) => Fault::keep_least(kept, fault),
        }
    }
}

// The order of faults is total: exactly one of less, same and greater holds of two, and less is transitive.
pub fn fault_order_stands()
    ensures { Total precedes_of }
{}
