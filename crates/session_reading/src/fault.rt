//! Why a text is no statement that can be evaluated.

use hopf_num::OutOfMemory;
use session_tokens::Name;

/// Why a text is not parsed. Where more than one applies, the first of this list is told.
#[derive(Drop)]
pub enum GrammarFault {
    /// More than 64 brackets are open.
    TooDeep,
    /// The tokens are no statement: at this place stands the first that fits none.
    Syntax(u32),
    /// At this place stands the first number of 2^127 or more.
    Number(u32),
    /// This word before `:=` is reserved.
    ReservedName(Name),
    /// The statement has a form that is not built yet.
    NotBuilt,
    /// At this place stands the first list that spells no index of its basis within the limit.
    BadIndex(u32),
    /// Memory ran out.
    Memory,
}

impl From<OutOfMemory> for GrammarFault {
    ghost use Rattle.std.specs.Prelude.{◌≡◌};
    ghost use Rattle.session_reading.specs.declared.fault.GrammarFault.TheVariants.{Memory};

    ghost from_gives = { λ _ e. e ≡ Memory };

    fn from(_: OutOfMemory) -> GrammarFault {
        GrammarFault::Memory
    }
}
