//! Why an operation on the world was skipped.
ghost use Rattle.std.specs.Prelude.{◌≡◌};
ghost use Rattle.ent_types.specs.Skips.{skip_name};

/// Why an operation was skipped. A skipped operation changes nothing.
///
/// Each operation tests for its own causes, in an order of its own; the first that holds is the cause.
#[derive(Clone, Copy, Debug, PartialEq, Eq)]
pub enum Skip {
    /// The entity isn't alive.
    NoEntity,
    /// The row lacks the type.
    NoComponent,
    /// A row with these types doesn't fit into a block.
    TooLarge,
    /// More entities are needed than the world has room for.
    Full,
    /// The type can't be disabled.
    NotEnableable,
    /// The row has as many elements of the type as a dynamic buffer holds.
    TooLong,
}

impl Skip {
    /// The word that a note prints for the cause: the name of the variant.
    #[tactic(auto, unfolding(crate::specs::Skips::skip_name))]
    pub fn name(self) -> &'static str
        ensures { result.now ≡ skip_name self }
    {
        match self {
            Skip::NoEntity => "NoEntity",
            Skip::NoComponent => "NoComponent",
            Skip::TooLarge => "TooLarge",
            Skip::Full => "Full",
            Skip::NotEnableable => "NotEnableable",
            Skip::TooLong => "TooLong",
        }
    }
}
