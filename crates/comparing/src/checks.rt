// The check of a log that comes in parts: `begin`, `pass` for each part in order, and `end`, which tells what `check` tells of the
// whole log.
ghost use Rattle.std.specs.Prelude.{◌≡◌};
ghost use Rattle.comparing.specs.Coming.{check_beginning, begun_inside, passed_byte, passed_bytes, fault_told};

use crate::{Checking, Fault, Wrong};

impl Checking {
    // A check that has seen no byte.
    pub fn begin() -> Checking
        ensures { result ≡ check_beginning }
    {
        Checking {
            passed: 0,
            place: 0,
            body: 0,
            wrong: false,
            inside: false,
        }
    }

    // Whether the log begins inside a group: its first byte says.
    #[tactic(auto, unfolding(crate::specs::Coming::begun_inside))]
    fn begun_inside(self, kind: u8) -> bool
        ensures { result ≡ begun_inside self.passed self.inside kind }
    {
        if self.passed == 0 {
            !crate::starts(kind)
        } else {
            self.inside
        }
    }

    // The check after one byte more.
    #[tactic(auto, unfolding(crate::specs::Coming::passed_byte))]
    fn pass_byte(self, byte: u8) -> Checking
        ensures { result ≡ passed_byte self byte }
    {
        if self.wrong {
            return self;
        }
        let passed = self.passed.wrapping_add(1);
        if self.body != 0 {
            return Checking {
                passed,
                body: self.body - 1,
                ..self
            };
        }
        if !crate::is_event(byte) {
            return Checking {
                place: self.passed,
                wrong: true,
                ..self
            };
        }
        Checking {
            passed,
            place: self.passed,
            body: records::length_of(byte),
            wrong: false,
            inside: self.begun_inside(byte),
        }
    }

    // Past the next part of the log.
    #[tactic(auto, unfolding(crate::specs::Coming::passed_bytes))]
    pub fn pass(self, part: &[u8]) -> Checking
        ensures { result ≡ passed_bytes self part.now }
    {
        part.iter().fold(self, |c, byte| c.pass_byte(*byte))
    }

    // Where no more bytes come.
    #[tactic(auto, unfolding(crate::specs::Coming::fault_told))]
    pub fn end(self) -> Result<(), Fault>
        ensures { result ≡ fault_told self }
    {
        let place = self.place;
        if self.wrong {
            return Err(Fault {
                wrong: Wrong::UnknownKind,
                place,
            });
        }
        if self.body != 0 {
            return Err(Fault {
                wrong: Wrong::CutShort,
                place,
            });
        }
        if self.inside {
            return Err(Fault {
                wrong: Wrong::InsideGroup,
                place: 0,
            });
        }
        Ok(())
    }
}
