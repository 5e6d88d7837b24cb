//! The majority of three bits.
ghost use Rattle.std.specs.Prelude.{◌≡◌};
ghost use Rattle.table_cover.specs.Cover.{majority_of};

/// The value that two or three of the bits have.
pub fn majority(a: bool, b: bool, c: bool) -> bool
    ensures { result ≡ majority_of a b c }
{
    if a { b || c } else { b && c }
}
