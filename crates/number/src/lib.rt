// A number that a case of an enum has in the interface, shown in the type of the case.
//
// A case that holds nothing shows its number as its discriminant, `Short = 1`. A case that holds something
// cannot have a discriminant, so it holds a `Number` as well, `NoPlace(Number<24>, u32)`: the definition of
// the enum then shows the number all the same, and no value of the case can have another.
#![tactic(auto)]

ghost use Rattle.std.specs.Prelude.{◌≡◌, ℕ, Some, decimal};

use std::fmt;

#[derive(Clone, Copy, Debug, PartialEq, Eq)]
pub struct Number<const N: u8>;

impl<const N: u8> Number<N> {
    // The number that the type shows.
    pub fn value(self) -> u8
        ensures { result ≡ N }
    {
        N
    }
}

// Written out, since its `ghost output` tells clauses what is printed; a derive promises nothing of that.
impl<const N: u8> fmt::Display for Number<N> {
    ghost output = { λ _. Some (decimal N) };

    fn fmt<W: fmt::Write>(&self, f: &mut fmt::Formatter<W>) -> fmt::Result {
        write!(f, "{N}")
    }
}

// What has a number in the interface: the declaration of each refusal shows the number that it is told by.
pub trait Numbered {
    // The number that the declaration shows.
    ghost number_of: { Self → ℕ };

    fn number(&self) -> u8
        ensures { result ≡ number_of self.now };
}
