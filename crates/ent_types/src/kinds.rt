//! Kinds of types and of fields.
ghost use Rattle.std.specs.Prelude.{◌≡◌};
ghost use Rattle.std.specs.Int.{int_wrap, w32};
ghost use Rattle.ent_types.specs.Types.{field_size, is_ref_kind, has_column, may_be_enableable, is_shared, is_cleanup, is_buffer};
ghost use Rattle.ent_types.specs.Fitting.{fit_number};

/// What a field holds.
#[derive(Clone, Copy, Debug, PartialEq, Eq, Hash)]
pub enum FieldKind {
    /// A signed number of 32 bits. It takes 4 bytes in a block.
    I32,
    /// A signed number of 64 bits. It takes 8 bytes in a block.
    I64,
    /// An entity. It takes 8 bytes in a block.
    Ref,
}

/// What the values of a type belong to.
#[derive(Clone, Copy, Debug, PartialEq, Eq, Hash)]
pub enum Kind {
    /// Each row has values of its own.
    Plain,
    /// No values at all: a row has the type or lacks it.
    Tag,
    /// All rows of a block have the same values (Unity's behaviour).
    Shared,
    /// As plain, but a destroyed row stays, without its other types, until these are removed (Unity's behaviour).
    Cleanup,
    /// Each row has a list of elements, each with one value for each field. The list lies outside the block.
    Buffer,
}

impl FieldKind {
    /// The bytes that a field of this kind takes in a row: 4 or 8.
    pub fn size(self) -> u32
        ensures { result ≡ field_size self }
    {
        match self {
            FieldKind::I32 => 4,
            FieldKind::I64 | FieldKind::Ref => 8,
        }
    }

    /// `true` if a field of this kind holds an entity.
    pub fn is_ref(self) -> bool
        ensures { result ≡ is_ref_kind self }
    {
        match self {
            FieldKind::I32 | FieldKind::I64 => false,
            FieldKind::Ref => true,
        }
    }
}

impl Kind {
    /// `true` if a type of this kind has a column in a block. A tag has no values, a block keeps shared values once
    /// for all its rows, and the elements of a buffer lie outside the block.
    pub fn has_column(self) -> bool
        ensures { result ≡ has_column self }
    {
        match self {
            Kind::Plain | Kind::Cleanup => true,
            Kind::Tag | Kind::Shared | Kind::Buffer => false,
        }
    }

    /// `true` if a type of this kind can be disabled in a row (Unity's behaviour).
    pub fn may_be_enableable(self) -> bool
        ensures { result ≡ may_be_enableable self }
    {
        match self {
            Kind::Plain | Kind::Tag => true,
            Kind::Shared | Kind::Cleanup | Kind::Buffer => false,
        }
    }

    /// `true` if all rows of a block have one value of a type of this kind.
    pub fn is_shared(self) -> bool
        ensures { result ≡ is_shared self }
    {
        match self {
            Kind::Plain | Kind::Tag | Kind::Cleanup | Kind::Buffer => false,
            Kind::Shared => true,
        }
    }

    /// `true` if a destroyed row stays while it has a type of this kind.
    pub fn is_cleanup(self) -> bool
        ensures { result ≡ is_cleanup self }
    {
        match self {
            Kind::Plain | Kind::Tag | Kind::Shared | Kind::Buffer => false,
            Kind::Cleanup => true,
        }
    }

    /// `true` if a row has a list of elements of a type of this kind.
    pub fn is_buffer(self) -> bool
        ensures { result ≡ is_buffer self }
    {
        match self {
            Kind::Plain | Kind::Tag | Kind::Shared | Kind::Cleanup => false,
            Kind::Buffer => true,
        }
    }
}

/// The number that a field of this kind keeps when it is set to `value`: an i32 field keeps the low 32 bits as a
/// signed number, an i64 field all. A ref field holds no number, so its answer is 0.
///
/// This project's own.
pub fn fit(kind: FieldKind, value: i64) -> i64
    ensures { result ≡ fit_number kind value }
{
    match kind {
        FieldKind::I32 => i64::from(low_half(value)),
        FieldKind::I64 => value,
        FieldKind::Ref => 0,
    }
}

/// The low 32 bits as a signed number.
fn low_half(value: i64) -> i32
    ensures { result ≡ int_wrap w32 value }
{
    (value.rem_euclid(1 << 32) as u32).cast_signed()
}
