// A bill as a page of text: a number, then what it counts.
use billing::{Bill, NoRate};
use model::{Answer, Refusal};
use std::fmt;

// The bill of so many bytes of a log.
#[derive(Clone, Copy)]
pub struct Summary {
    pub bytes: u64,
    pub bill: Bill,
}

// The refusals, by their numbers.
const REFUSALS: [Refusal; 12] = [
    Refusal::SettingOutOfRange,
    Refusal::SliceLength,
    Refusal::NotSound,
    Refusal::BadAccess,
    Refusal::SetBusy,
    Refusal::SetHeld,
    Refusal::QueueFull,
    Refusal::EntryFull,
    Refusal::MissTableFull,
    Refusal::NotSent,
    Refusal::BadCycle,
    Refusal::QueueEmpty,
];

// What a refusal means.
#[derive(Clone, Copy)]
struct Meaning(Refusal);

impl fmt::Display for Meaning {
    fn fmt<W: fmt::Write>(&self, f: &mut fmt::Formatter<W>) -> fmt::Result {
        let mut words = [0u8; 64];
        let end = wording::names::put_meaning(self.0, &mut words, 0);
        match std::str::from_utf8(text::front(&words, end)) {
            Ok(meaning) => f.write_str(meaning),
            Err(_) => Ok(()),
        }
    }
}

impl Summary {
    // The sum at a place of the bill, in its column, and what it counts.
    fn row<W: fmt::Write>(
        &self,
        f: &mut fmt::Formatter<W>,
        place: usize,
        what: &str,
    ) -> fmt::Result {
        writeln!(f, "{:>12}  {what}", billing::count(self.bill, place))
    }

    // The share of accesses that hit, as a percentage with one decimal, if there is one.
    fn rate<W: fmt::Write>(&self, f: &mut fmt::Formatter<W>) -> fmt::Result {
        let hits = billing::count(self.bill, 1);
        let accesses = billing::count(self.bill, billing::ACCESSES);
        match billing::rate_of(hits, accesses) {
            Ok(n) => writeln!(
                f,
                "{:>8}.{} %  hit rate: HIT of the accesses answered",
                n / 10,
                n % 10
            ),
            Err(NoRate::OfNothing) => {
                writeln!(f, "           -  hit rate: no access was answered")
            }
            Err(NoRate::TooLarge) => {
                writeln!(f, "           -  hit rate: too many hits for 64 bits")
            }
        }
    }

    // How accesses were answered.
    fn answers<W: fmt::Write>(&self, f: &mut fmt::Formatter<W>) -> fmt::Result {
        self.row(f, billing::ACCESSES, "accesses answered")?;
        for (answer, what) in [
            (Answer::Hit, "  HIT"),
            (Answer::HitReserved, "  HIT_RESERVED"),
            (Answer::Miss, "  MISS"),
            (Answer::SectorMiss, "  SECTOR_MISS"),
        ] {
            self.row(f, u8::from(answer) as usize, what)?;
        }
        self.rate(f)
    }

    // All refusals, and those of each number of which there are any.
    fn refusals<W: fmt::Write>(&self, f: &mut fmt::Formatter<W>) -> fmt::Result {
        self.row(f, billing::REFUSALS, "refused")?;
        for n in REFUSALS {
            let number = u8::from(n);
            let count = billing::count(self.bill, billing::REFUSALS + number as usize);
            if 0 < count {
                writeln!(f, "{count:>12}    {number} {}", Meaning(n))?;
            }
        }
        Ok(())
    }

    // Reads from their queueing to their readers, write-backs queued and sent, ticks; bytes over the memory bus, each way.
    fn traffic<W: fmt::Write>(&self, f: &mut fmt::Formatter<W>) -> fmt::Result {
        self.row(f, billing::READS_QUEUED, "reads queued")?;
        self.row(f, billing::READS_SENT, "reads sent")?;
        self.row(f, billing::FILLS, "fills")?;
        self.row(f, billing::RELEASED, "readers released")?;
        self.row(f, billing::WRITE_BACKS_QUEUED, "write-backs queued")?;
        self.row(f, billing::WRITE_BACKS_SENT, "write-backs sent")?;
        self.row(f, billing::TICKS, "ticks")?;
        self.row(
            f,
            billing::BYTES_FILLED,
            "bytes in from memory: 32 for each fill",
        )?;
        self.row(
            f,
            billing::DIRTY_BYTES_SENT,
            "bytes out to memory: the dirty bytes of the write-backs sent",
        )
    }
}

impl fmt::Display for Summary {
    fn fmt<W: fmt::Write>(&self, f: &mut fmt::Formatter<W>) -> fmt::Result {
        writeln!(f, "{:>12}  bytes of log", self.bytes)?;
        self.answers(f)?;
        self.refusals(f)?;
        self.traffic(f)?;
        if self.bill.full {
            writeln!(f, "A sum passed 64 bits: the bill stops before that event.")?;
        }
        Ok(())
    }
}
