//! The law of conversions. Its function computes nothing: callers cite its clause.
ghost use Rattle.basis_routes.specs.Laws.{ConversionLaw};

/// A conversion has exactly one answer. Where this is a value, it reads as before.
///
/// Nothing is computed: callers cite the clause.
pub fn conversion_law()
    ensures { ConversionLaw }
{}
