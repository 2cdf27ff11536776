// A list of records in a lent slice, with room for more.
ghost use Rattle.std.specs.Prelude.{◌≡◌, ◌==◌, ◌≤◌, min, Bool, [], ◌++◌, map, length, take, drop, filter, slice_get, MatchOption, Some, None};
ghost use Rattle.std.specs.Option.{ok_or};
ghost use Rattle.carrier.specs.Records.{records_list, records_room, Pushed, Removed};

use wire::Refusal;

// What says of a record whether it stays. A trait and no closure: `retain` is public, and would have to require that its closure may be called.
pub trait Stays<T> {
    ghost kept: { Self → T → Bool };

    fn stays(&self, item: &T) -> bool
        ensures { result ≡ kept self.now item.now };
}

// It means something at every value: no more records than fit, and 4,096 at most. Memory is lent and fixed, so a count stands beside it; a struct that borrows mutably has no model.
#[derive(Drop)]
pub struct Records<'a, T> {
    lent: &'a mut [T],
    used: usize,
}

// The two loops take the slice and how much of it is in use. Tried with the part alone: lent out of a field, it ends as no proof knows.

// Puts what `f` makes of it in the place of each of the first `used` items.
fn replace_each<T: Copy, F: Fn(T) -> T>(lent: &mut [T], used: usize, f: F)
    requires callable { F.IsAlwaysCallable f }
    requires within { used ≤ length lent.old }
    ensures { (g : T → T) → ((x y : T) → F.post f x y → y ≡ g x) → lent.new ≡ map g (take used lent.old) ++ drop used lent.old }
{
    for item in lent[..used].iter_mut() {
        *item = f(*item);
    }
}

// Closes the gaps of those among the first `used` items that do not stay, and answers how many are left. It goes by index, since it writes behind where it reads.
fn close_gaps<T: Copy, S: Stays<T>>(lent: &mut [T], used: usize, by: &S) -> usize
    requires { used ≤ length lent.old }
    ensures upto { result ≤ used }
    ensures list { take result lent.new ≡ filter (S.kept by.now) (take used lent.old) }
{
    let mut left = 0;
    for i in 0..used {
        if by.stays(&lent[i]) {
            if left < i {
                lent[left] = lent[i];
            }
            left += 1;
        }
    }
    left
}

impl<'a, T: Copy> Records<'a, T> {
    // No records yet. Of the slice it uses 4,096 at most.
    pub fn new(lent: &'a mut [T]) -> Records<'a, T>
        ensures list { records_list result ≡ [] }
        ensures room { records_room result ≡ min 4096 (length lent.old) }
        ensures lent { result.lent.now ≡ lent.old }
    {
        Records { lent, used: 0 }
    }

    fn as_slice(&self) -> &[T]
        ensures { result.now ≡ records_list self.now }
    {
        &self.lent[..self.used.min(self.capacity() as usize)]
    }

    pub fn capacity(&self) -> u32
        ensures { result ≡ records_room self.now }
    {
        self.lent.len().min(4096) as u32
    }

    pub fn count(&self) -> u32
        ensures { result ≡ length (records_list self.now) }
    {
        self.as_slice().len() as u32
    }

    pub fn is_empty(&self) -> bool
        ensures { result ≡ (length (records_list self.now) == 0) }
    {
        self.used == 0 || self.lent.is_empty()
    }

    // The record at a place, where it lies: one that is copied out whole is read back part by part, which takes three times as long.
    pub(crate) fn find(&self, place: u32) -> Option<&T>
        ensures { MatchOption result (slice_get (records_list self.now) place ≡ None) (λ item. slice_get (records_list self.now) place ≡ Some item.now) }
    {
        self.as_slice().get(place as usize)
    }

    // The record at a place.
    pub fn get(&self, place: u32) -> Result<T, Refusal>
        ensures { result ≡ ok_or (slice_get (records_list self.now) place) Refusal.NoSuchPlace }
    {
        self.find(place).copied().ok_or(Refusal::NoSuchPlace)
    }

    // The record joins behind the others.
    pub fn push(&mut self, item: T) -> Result<(), Refusal>
        ensures list { Pushed (records_room self.old) item (records_list self.old) result (records_list self.new) }
        ensures room { records_room self.new ≡ records_room self.old }
    {
        let used = self.as_slice().len();
        if used >= self.capacity() as usize {
            return Err(Refusal::CarrierFull);
        }
        self.lent[used] = item;
        self.used = used + 1;
        Ok(())
    }

    // Removes the record at a place.
    #[tactic(auto, using(crate::proofs::Held::held_gap))]
    pub fn remove(&mut self, place: u32) -> Result<(), Refusal>
        ensures list { Removed place (records_list self.old) result (records_list self.new) }
        ensures room { records_room self.new ≡ records_room self.old }
    {
        let used = self.as_slice().len();
        let place = place as usize;
        if place >= used {
            return Err(Refusal::NoSuchPlace);
        }
        self.lent.copy_within(place + 1..used, place);
        self.used = used - 1;
        Ok(())
    }

    // Puts what `f` makes of it in the place of each record.
    pub(crate) fn update<F: Fn(T) -> T>(&mut self, f: F)
        requires { F.IsAlwaysCallable f }
        ensures list { (g : T → T) → ((x y : T) → F.post f x y → y ≡ g x) → records_list self.new ≡ map g (records_list self.old) }
        ensures room { records_room self.new ≡ records_room self.old }
    {
        let used = self.as_slice().len();
        replace_each(self.lent, used, f);
    }

    // Removes the records that do not stay.
    pub fn retain<S: Stays<T>>(&mut self, by: &S)
        ensures list { records_list self.new ≡ filter (S.kept by.now) (records_list self.old) }
        ensures room { records_room self.new ≡ records_room self.old }
    {
        let used = self.as_slice().len();
        self.used = close_gaps(self.lent, used, by);
    }
}
