// The readings at the edges of the rules, as one table.
#![tactic(auto)]

ghost use Rattle.edges.specs.Table.{Table};

// Every row of the table holds.
pub fn edges_hold()
    ensures { Table }
{}

#[cfg(test)]
mod tests {
    use std::test::Fail;
    use wire::{Command, Content, Refusal, Terms, Window};

    // The number of the refusal that terms meet, or 0: numbers are what is expected here.
    fn refusal(terms: Result<Terms, Refusal>) -> u8 {
        terms.err().map_or(0, Refusal::number)
    }

    #[test]
    fn terms(rt: HostRuntime) {
        assert_eq!(rt; refusal(Terms::new(2, 2, 3, 2, 6)), 0);
        assert_eq!(rt; refusal(Terms::new(2, 2, 3, 2, 5)), 2);
        assert_eq!(rt; refusal(Terms::new(1, 1, 1, 1, 3)), 0);
        assert_eq!(rt; refusal(Terms::new(1, 1, 1, 1, 2)), 2);
        assert_eq!(rt; refusal(Terms::new(4096, 4096, 65535, 1, 65536)), 2);
        assert_eq!(rt; refusal(Terms::new(4097, 1, 1, 1, 1)), 1);
        assert_eq!(rt; refusal(Terms::new(1, 1, 1, 1, 65537)), 1);
    }

    #[test]
    fn frames(rt: HostRuntime) -> Result<(), Fail> {
        let Ok(terms) = Terms::new(2, 2, 3, 2, 6) else {
            return Err(Fail::new("terms"));
        };
        let data = Content::Data {
            number: terms.cyclic(7),
            block: Command::Stop,
        }
        .write();
        assert_eq!(rt;
            (data.head, data.words.first, data.words.second),
            (0x4000_0001, 0x4000_0000, 0)
        );
        let heard = Content::<Command>::Acknowledgement {
            number: terms.cyclic(7),
            window: Window::new(2),
        }
        .write();
        assert_eq!(rt;
            (heard.head, heard.words.first, heard.words.second),
            (0x8002_0001, 0, 0)
        );
        let end = Content::<Command>::EndMark {
            number: terms.cyclic(8),
        }
        .write();
        assert_eq!(rt;
            (end.head, end.words.first, end.words.second),
            (0xc000_0002, 0, 0)
        );
        Ok(())
    }
}
