//! Codes with more in front.
ghost use Rattle.std.specs.Prelude.{◌≡◌, ◌≤◌, ◌∷◌, length};
ghost use Rattle.linear_combos.specs.Codes.{IsCode};
ghost use Rattle.realisations.specs.Descents.{longer_first};

use linear_combos::Code;

// A part in front.
pub(crate) fn part_before(part: u8, parts: &Code) -> Code
    requires { IsCode (part ∷ parts.now) }
    ensures { result ≡ part ∷ parts.now }
{
    let none = Code::empty();
    let front = none.with(part);
    front.followed_by(parts)
}

// The first part one larger.
pub(crate) fn first_longer(parts: &Code) -> Code
    requires some { 1 ≤ length parts.now }
    requires longer { IsCode (longer_first parts.now) }
    ensures { result ≡ longer_first parts.now }
{
    let behind = parts.suffix(1);
    part_before(parts.letter(0) + 1, &behind)
}
