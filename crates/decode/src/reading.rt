// The words of a script, one after the other, as terms and calls.
ghost use Rattle.std.specs.Prelude.{◌≡◌, ◌^◌, ◌<◌, IfOk, OnOk};
ghost use Rattle.decode.specs.Decoding.{script_of, asked, stepped, termed, called, commanded, finished, decoded_of};

use crate::decoder::Decoder;
use crate::kind::{BadWord, Kind};
use crate::phase::Phase;
use crate::word::{Due, parted};
use promise::{Call, Reply, Turn};
use std::alloc::{AllocError, Global};
use wire::{Block, Command, Words};

// The most words that a script has.
const MOST: usize = 16384;

impl Decoder {
    // Reads a script: what it holds up to its end or its first bad word.
    pub fn read(heap: Global, bytes: &[u8]) -> Result<Decoder, AllocError>
        ensures { IfOk result (λ d. script_of d ≡ decoded_of bytes.now) }
    {
        let mut script = Decoder {
            place: 0,
            phase: Phase::Terms,
            terms: Vec::new(heap),
            turns: Vec::new(heap),
            ended: false,
        };
        let (words, _) = bytes.as_chunks::<4>();
        let words = &words[..words.len().min(MOST)];
        for word in words {
            script.step(u32::from_be_bytes(*word))?;
        }
        script.finish(4 * words.len() < bytes.len());
        Ok(script)
    }

    // No word is left: an offer's words may be missing, and bytes may be left over.
    fn finish(&mut self, more: bool)
        ensures { script_of self.new ≡ finished more (script_of self.old) }
    {
        match self.phase {
            Phase::First(offer) | Phase::Second(offer, _) => self.phase = Phase::Bad(offer),
            Phase::Bad(_) => {}
            _ if more => self.phase = Phase::Bad(self.place),
            _ => {}
        }
    }

    fn push(&mut self, call: Call<Command>) -> Result<(), AllocError>
        ensures { OnOk result (script_of self.new ≡ asked call (script_of self.old)) }
    {
        // replay writes over it; an option in each turn would be one that is never none when it is read
        let answer = Ok(Reply::Done);
        self.turns.push(Turn { call, answer })?;
        Ok(())
    }

    // A word where a term is due.
    fn term(&mut self, word: u32) -> Result<(), AllocError>
        ensures { OnOk result (script_of self.new ≡ termed word (script_of self.old)) }
    {
        let (Ok(Kind::Term), argument) = parted(word) else {
            self.phase = Phase::Bad(self.place);
            return Ok(());
        };
        self.terms.push(argument)?;
        if self.terms.len() == 5 {
            self.phase = Phase::Calls;
        }
        Ok(())
    }

    // A word where a call is due.
    fn call(&mut self, word: u32) -> Result<(), AllocError>
        ensures { OnOk result (script_of self.new ≡ called word (script_of self.old)) }
    {
        match Due::try_from(word) {
            Ok(Due::Call(call)) => self.push(call)?,
            Ok(Due::Offer) => self.phase = Phase::First(self.place),
            Ok(Due::End) => {
                self.phase = Phase::Ended;
                self.ended = true;
            }
            Err(BadWord) => self.phase = Phase::Bad(self.place),
        }
        Ok(())
    }

    // The second word of the command that the offer at a place has.
    fn command(&mut self, offer: u32, words: Words) -> Result<(), AllocError>
        ensures { OnOk result (script_of self.new ≡ commanded offer words (script_of self.old)) }
    {
        match Command::from_words(words) {
            Ok(command) => {
                self.push(Call::Offer(command))?;
                self.phase = Phase::Calls;
            }
            Err(_) => self.phase = Phase::Bad(offer),
        }
        Ok(())
    }

    // One word, by what is due: a match and no closures, since the phase holds what was read so far.
    fn step(&mut self, word: u32) -> Result<(), AllocError>
        requires { self.old.place < 2 ^ 31 }
        ensures { OnOk result (script_of self.new ≡ stepped (script_of self.old) word) }
    {
        match self.phase {
            Phase::Terms => self.term(word)?,
            Phase::Calls => self.call(word)?,
            Phase::First(offer) => self.phase = Phase::Second(offer, word),
            Phase::Second(offer, first) => {
                let second = word;
                self.command(offer, Words { first, second })?;
            }
            Phase::Ended => self.phase = Phase::Bad(self.place),
            Phase::Bad(_) => {}
        }
        self.place += 1;
        Ok(())
    }
}
