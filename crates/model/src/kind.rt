ghost use Rattle.model.specs.Kinds.{value_number, type_number, extension_code, Decodes};
ghost use Rattle.std.specs.Prelude.{◌≡◌};

// A number that stands for none of the kinds that are asked for.
#[derive(Clone, Copy, PartialEq, Eq)]
pub struct UnknownKind(pub u32);

// What a node of a value is.
#[derive(Clone, Copy, PartialEq, Eq)]
pub enum ValueKind {
    Bool = 1,
    Long = 2,
    String = 3,
    Uid = 4,
    Set = 5,
    Record = 6,
    Extension = 7,
}

// The kind of the first node of an entity's run, which no value has. An enum beside `ValueKind` would have this one case.
pub const ENTITY_KIND: u32 = 9;

impl From<ValueKind> for u32 {
    ghost from_gives = { λ kind n. n ≡ value_number kind };

    fn from(value_kind: ValueKind) -> u32 {
        value_kind as u32
    }
}

impl TryFrom<u32> for ValueKind {
    type Error = UnknownKind;

    ghost try_from_gives = { Decodes value_number };

    fn try_from(number: u32) -> Result<ValueKind, UnknownKind> {
        match number {
            1 => Ok(ValueKind::Bool),
            2 => Ok(ValueKind::Long),
            3 => Ok(ValueKind::String),
            4 => Ok(ValueKind::Uid),
            5 => Ok(ValueKind::Set),
            6 => Ok(ValueKind::Record),
            7 => Ok(ValueKind::Extension),
            _ => Err(UnknownKind(number)),
        }
    }
}

// What an extension value or type is.
#[derive(Clone, Copy, PartialEq, Eq)]
pub enum ExtensionKind {
    Decimal = 1,
    Ipaddr = 2,
    Datetime = 3,
    Duration = 4,
}

impl From<ExtensionKind> for u32 {
    ghost from_gives = { λ kind n. n ≡ extension_code kind };

    fn from(extension_kind: ExtensionKind) -> u32 {
        extension_kind as u32
    }
}

impl TryFrom<u32> for ExtensionKind {
    type Error = UnknownKind;

    ghost try_from_gives = { Decodes extension_code };

    fn try_from(code: u32) -> Result<ExtensionKind, UnknownKind> {
        match code {
            1 => Ok(ExtensionKind::Decimal),
            2 => Ok(ExtensionKind::Ipaddr),
            3 => Ok(ExtensionKind::Datetime),
            4 => Ok(ExtensionKind::Duration),
            _ => Err(UnknownKind(code)),
        }
    }
}

// What a node of a type is.
#[derive(Clone, Copy, PartialEq, Eq)]
pub enum TypeKind {
    Bool = 1,
    True = 2,
    False = 3,
    Long = 4,
    String = 5,
    Entity = 6,
    AnyEntity = 7,
    Entities = 8,
    Extension = 9,
    Set = 10,
    AnySet = 11,
    ClosedRecord = 12,
    OpenRecord = 13,
    Never = 14,
}

impl From<TypeKind> for u32 {
    ghost from_gives = { λ kind n. n ≡ type_number kind };

    fn from(type_kind: TypeKind) -> u32 {
        type_kind as u32
    }
}

impl TryFrom<u32> for TypeKind {
    type Error = UnknownKind;

    ghost try_from_gives = { Decodes type_number };

    fn try_from(number: u32) -> Result<TypeKind, UnknownKind> {
        match number {
            1 => Ok(TypeKind::Bool),
            2 => Ok(TypeKind::True),
            3 => Ok(TypeKind::False),
            4 => Ok(TypeKind::Long),
            5 => Ok(TypeKind::String),
            6 => Ok(TypeKind::Entity),
            7 => Ok(TypeKind::AnyEntity),
            8 => Ok(TypeKind::Entities),
            9 => Ok(TypeKind::Extension),
            10 => Ok(TypeKind::Set),
            11 => Ok(TypeKind::AnySet),
            12 => Ok(TypeKind::ClosedRecord),
            13 => Ok(TypeKind::OpenRecord),
            14 => Ok(TypeKind::Never),
            _ => Err(UnknownKind(number)),
        }
    }
}
