// Cyclic numbers: what a frame carries of a whole number.
ghost use Rattle.std.specs.Prelude.{◌≡◌};
ghost use Rattle.ends.specs.Numbers.{ahead};

use wire::Terms;

// How far a cyclic number lies past a whole one.
pub(crate) fn ahead(terms: Terms, cyclic: u16, whole: u64) -> u64
    ensures { result ≡ ahead terms.numbers cyclic whole }
{
    let numbers = u64::from(terms.numbers());
    (u64::from(cyclic) + numbers - whole % numbers) % numbers
}
