// The base of a rounding.
ghost use Rattle.std.specs.Prelude.{◌≡◌};
ghost use Rattle.rounding.specs.Bases.{base_in};

use vocabulary::Refusal;

#[derive(Clone, Copy, PartialEq, Eq)]
pub enum Base {
    Three,
    Five,
}

// The base that a number stands for.
impl TryFrom<u16> for Base {
    type Error = Refusal;

    ghost try_from_gives = { λ n r. r ≡ base_in n };

    fn try_from(n: u16) -> Result<Self, Refusal> {
        match n {
            3 => Ok(Base::Three),
            5 => Ok(Base::Five),
            _ => Err(Refusal::Base),
        }
    }
}
