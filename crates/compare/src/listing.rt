// All pairs that differ: turns over both logs, and for each pair that ends as one that differs its lines.
ghost use Rattle.std.specs.Prelude.{◌≡◌, ◌<◌, OnOk};
ghost use Rattle.compare.specs.Turns.{next_step};
ghost use Rattle.compare.specs.Lines.{ListsPair, FewerLeft};

use crate::page::{Page, Stopped};
use crate::says::Name;
use crate::turns::Pass;
use crate::{says, showing};
use comparing::{Side, Step, Walk};
use output::Output;

// A log that passed its check: its name, and the bytes that it had.
#[derive(Drop)]
pub struct Checked {
    pub name: Name,
    pub size: usize,
}

impl Checked {
    // Where a log has run out, it is as long as when it was checked.
    fn lasts(&self, s: Side) -> bool {
        s.passed != 0 || s.place == self.size
    }
}

// The reading for the pairs, the reading for the lines, both logs as they were checked, the text that waits.
#[derive(Drop)]
pub struct Listing {
    pub pairs: Pass,
    pub lines: Pass,
    pub first: Checked,
    pub second: Checked,
    pub page: Page,
}

impl Listing {
    // Stops where a log is not as long as when it was checked.
    fn unchanged(&self, to: Output, w: Walk) -> Result<(), Stopped> {
        if self.first.lasts(w.first) && self.second.lasts(w.second) {
            return Ok(());
        }
        says::changed(to);
        Err(Stopped)
    }

    // What stands over the lines of a pair, behind the names before the first one.
    fn head_pair(&mut self, w: Walk) -> Result<(), Stopped>
        ensures { (self.new.pairs ≡ self.old.pairs) × (self.new.lines ≡ self.old.lines) }
    {
        if w.lowest.is_none() {
            says::name_both(&self.page, &self.first.name, &self.second.name)?;
        }
        says::pair(&mut self.page, w)
    }

    // The lines of the pair that a walk ended. Where what stands over them could not be written, one turn of the second reading is made all
    // the same, so that a log that cannot be read there is told too.
    fn list_pair(&mut self, to: Output, w: Walk) -> Result<(), Stopped>
        ensures pairs { self.new.pairs ≡ self.old.pairs }
        ensures shown { OnOk result (w.number < self.new.lines.walk.number) }
    {
        self.unchanged(to, w)?;
        if self.head_pair(w).is_err() {
            let step = self.lines.step();
            self.lines.turn(to, step)?;
            return Err(Stopped);
        }
        showing::show(&mut self.lines, &mut self.page, to, w.number)
    }

    // The last line.
    fn finish(&mut self, to: Output, w: Walk) -> Result<(), Stopped>
        ensures { (self.new.pairs ≡ self.old.pairs) × (self.new.lines ≡ self.old.lines) }
    {
        self.unchanged(to, w)?;
        says::counts(&mut self.page, w)
    }

    // One turn of the listing: a step over both logs, and the lines of a pair that differs. Says whether there is another one.
    fn list_turn(&mut self, to: Output) -> Result<bool, Stopped>
        ensures lists_pair { ListsPair self.old result self.new (next_step self.old.pairs) }
        ensures fewer_left { FewerLeft self.old result self.new }
    {
        let w = self.pairs.walk;
        let step = self.pairs.step();
        self.pairs.turn(to, step)?;
        match step {
            Step::Pair { differs, .. } => {
                if differs {
                    self.list_pair(to, w)?;
                }
                Ok(true)
            }
            Step::Over => {
                self.finish(to, w)?;
                Ok(false)
            }
            Step::Row { .. } => Ok(true),
            Step::Wants(_) => Ok(true),
        }
    }

    // Lists every pair of groups that differs. Each turn passes some, reads some, ends a pair, or is the last.
    fn list_all(&mut self, to: Output) -> Result<(), Stopped> {
        let mut more = true;
        while more {
            more = self.list_turn(to)?;
        }
        Ok(())
    }

    // The same, and writes what waits, also where it stopped.
    pub fn list(&mut self, to: Output) -> Result<(), Stopped> {
        let listed = self.list_all(to);
        self.page.flush()?;
        listed
    }
}
