//! The law of commuting images. The function here computes nothing: callers cite its clause.
ghost use Rattle.commuting_images.specs.Images.{ImagesExistLaw};

/// Each element of a basis, within its limit, has a commuting image, of norm at most 2^(5n), n its degree.
///
/// Nothing is computed: callers cite the clause.
pub fn images_exist_law()
    ensures { ImagesExistLaw }
{}
