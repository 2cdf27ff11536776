// Making a window store, and reading and writing it by number.
ghost use Rattle.std.specs.Prelude.{◌≡◌, ◌%◌, ◌<◌, length, replicate, MatchOption};
ghost use Rattle.store.specs.Stores.{stored, at_number, set-number};

use crate::store::WindowStore;

impl<'a, T: Copy> WindowStore<'a, T> {
    // A store over a slice of any length; the calls that it is lent to refuse a wrong one.
    // `lender` says through which loan it writes. Every call that takes a store says it again, since no type holds it.
    pub fn new(places: &'a mut [T]) -> WindowStore<'a, T>
        ensures value { stored result ≡ places.old }
        ensures lender { result.places.ghost_name ≡ places.entry.ghost_name }
    {
        WindowStore { places }
    }

    pub fn len(&self) -> u64
        ensures { result ≡ length (stored self.now) }
    {
        self.places.len() as u64
    }

    // The place of a number; none where there is no place at all.
    fn place(&self, number: u64) -> Option<usize>
        ensures { MatchOption result (length (stored self.now) ≡ 0) (λ at. (at ≡ number % length (stored self.now)) × (at < length (stored self.now))) }
    {
        let at = number.checked_rem(self.len())?;
        Some(at as usize)
    }

    // What lies under a number; `none` where the store has no place at all.
    pub fn read(&self, number: u64, none: T) -> T
        ensures { result ≡ at_number none (stored self.now) number }
    {
        let Some(at) = self.place(number) else {
            return none;
        };
        let places: &[T] = self.places;
        places[at]
    }

    // Puts an element under a number; a store with no place stays as it is.
    pub fn write(&mut self, number: u64, element: T)
        ensures after { stored self.new ≡ set-number (stored self.old) number element }
        ensures lender { self.new.places.ghost_name ≡ self.old.places.ghost_name }
    {
        if let Some(at) = self.place(number) {
            self.places[at] = element;
        }
    }

    // Puts one element into every place.
    pub fn fill(&mut self, element: T)
        ensures after { stored self.new ≡ replicate (length (stored self.old)) element }
        ensures lender { self.new.places.ghost_name ≡ self.old.places.ghost_name }
    {
        fill_all(self.places, element);
    }
}

// The slice's own `fill` asks for a clone that cannot fail, which no bound says of every `Copy` type.
fn fill_all<T: Copy>(places: &mut [T], element: T)
    ensures { places.new ≡ replicate (length places.old) element }
{
    for place in places.iter_mut() {
        *place = element;
    }
}
