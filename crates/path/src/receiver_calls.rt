// The receiving user's calls. The receiver's store is lent to each that needs it, as the last call left it.
ghost use Rattle.std.specs.Prelude.{◌≡◌, ◌≤◌};
ghost use Rattle.path.specs.States.{ends_of};
ghost use Rattle.path.specs.Parts.{Booked};
ghost use Rattle.ends.specs.Numbers.{ahead};
ghost use Rattle.path.specs.Steps.{Arrived, Taken, Delivered, Acknowledged, Risen, number_in};
ghost use Rattle.store.specs.Stores.{stored};

use crate::entry::Entry;
use crate::framing::carried;
use crate::path::Path;
use carrier::Carrier;
use store::WindowStore;
use wire::{Block, Content, Refusal};

// The first number from `from` on whose place is empty, at most `limit`. Tried with `find`: that the places before it are filled stays open.
fn climb<B: Block>(got: &WindowStore<Option<Entry<B>>>, from: u64, limit: u64) -> u64
    requires { from ≤ limit }
    ensures { Risen (stored got.now) from limit result }
{
    for number in from..limit {
        if got.read(number, None).is_none() {
            return number;
        }
    }
    limit
}

// Writes what lay under a number into the book: a block, or nothing for the end mark or an empty place.
// By place: of what is written through `get_mut` no proof knows.
fn write_due<B: Block>(book: &mut [B], number: u64, due: Option<Entry<B>>) -> Result<(), Refusal>
    ensures { Booked due number book.old result book.new }
{
    if let Some(Entry::Block(block)) = due {
        if number >= book.len() as u64 {
            return Err(Refusal::BookFull);
        }
        book[number as usize] = block;
    }
    Ok(())
}

impl<O: Carrier, K: Carrier> Path<O, K> {
    // Stores the entry of a content where there is room for it, and lets nr rise.
    fn take<B: Block>(
        &mut self,
        content: Content<B>,
        got: &mut WindowStore<Option<Entry<B>>>,
    ) -> Option<u64>
        ensures taken { Taken content (ahead self.old.sender.terms.numbers (number_in content) self.old.receiver.nr) (ends_of O.Carrier K.Carrier self.old) (stored got.old) result (ends_of O.Carrier K.Carrier self.new) (stored got.new) }
        ensures lender { got.new.places.ghost_name ≡ got.old.places.ghost_name }
    {
        let receiver = self.receiver;
        let (cyclic, entry) = carried(content);
        let number = receiver.number(cyclic)?;
        got.write(number, Some(entry));
        let nr = climb(got, receiver.nr, receiver.limit());
        self.receiver.rise(nr);
        Some(number)
    }

    // Reads the frame at a place of the outward carrier and stores its entry. Answers its number, or none where it is ignored.
    pub fn arrive<B: Block>(
        &mut self,
        place: u32,
        got: &mut WindowStore<Option<Entry<B>>>,
    ) -> Result<Option<u64>, Refusal>
        ensures arrived { Arrived B.Block.reads place (ends_of O.Carrier K.Carrier self.old) (stored got.old) result (ends_of O.Carrier K.Carrier self.new) (stored got.new) }
        ensures lender { got.new.places.ghost_name ≡ got.old.places.ghost_name }
    {
        let content = self.read_outward(place, got)?;
        Ok(self.take(content, got))
    }

    // Writes the next entry in sequence into the book, empties its place and answers its number.
    pub fn deliver<B: Block>(
        &mut self,
        got: &mut WindowStore<Option<Entry<B>>>,
        book: &mut [B],
    ) -> Result<u64, Refusal>
        ensures delivered { Delivered (ends_of O.Carrier K.Carrier self.old) (stored got.old) book.old result (ends_of O.Carrier K.Carrier self.new) (stored got.new) book.new }
        ensures lender { got.new.places.ghost_name ≡ got.old.places.ghost_name }
    {
        self.check_got(got)?;
        let receiver = self.receiver;
        receiver.due()?;
        let number = receiver.nd;
        write_due(book, number, got.read(number, None))?;
        got.write(number, None);
        self.receiver.deliver();
        Ok(number)
    }

    // Puts an acknowledgement of nr with the room past it onto the back carrier, and answers nr.
    pub fn acknowledge(&mut self) -> Result<u64, Refusal>
        ensures acknowledged { Acknowledged (ends_of O.Carrier K.Carrier self.old) result (ends_of O.Carrier K.Carrier self.new) }
    {
        self.made()?;
        self.put_acknowledgement()?;
        Ok(self.receiver.nr)
    }
}
