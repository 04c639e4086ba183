// The limits of the product. A name, a list, a run or a memory beyond one of them is refused.

// How many names there are: a name is a number below this one, and 0 is the empty name.
pub const NAMES: u32 = 65_536;

// Entity types and action types of a schema, together.
pub const TYPES: usize = 64;

pub const ACTIONS: usize = 256;

// The members of an enum type.
pub const MEMBERS: usize = 256;

pub const SET_ELEMENTS: u32 = 256;

// The descendants of a standard type.
pub const DESCENDANTS: usize = 64;

pub const RECORD_FIELDS: u32 = 64;

pub const ANCESTORS: u32 = 64;

pub const TAGS: i64 = 64;

// How deep a value, a type or a term nests: a scalar has nesting 1.
pub const NESTING: usize = 16;

// The nodes of one run; also the least length of a load or answer buffer.
pub const RUN_NODES: usize = 4_096;

// The entities of one store.
pub const STORE_ENTITIES: u32 = 1_024;

// The nodes of a table of nodes or of an image.
pub const STORE_NODES: u32 = 65_536;

// The entities of standard types of one environment.
pub const STANDARD_ENTITIES: usize = 1_024;

pub const WALK_STEPS: usize = 16;

pub const POOL_RECORDS: usize = 1_048_576;
