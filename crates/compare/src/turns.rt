// One turn over two logs: a step of `comparing` on the bytes that wait, or more bytes for the log that has to show more.
ghost use Rattle.std.specs.Prelude.{◌≡◌};
ghost use Rattle.compare.specs.Windows.{unread};
ghost use Rattle.compare.specs.Turns.{next_step, Comes, LessLeft};
ghost use Rattle.comparing.specs.Steps.{walk_beginning};

use crate::page::Stopped;
use crate::reading::Feed;
use comparing::{Log, Step, Walk};
use input::Source;
use output::Output;

// Two logs through their buffers, and the walk over them.
#[derive(Drop)]
pub struct Pass {
    pub first: Feed,
    pub second: Feed,
    pub walk: Walk,
}

impl Pass {
    // A pass over two logs of which nothing has been read.
    pub fn new(first: Source, second: Source) -> Pass
        ensures { (result.first.window ≡ unread) × (result.second.window ≡ unread) × (result.walk ≡ walk_beginning) }
    {
        Pass {
            first: Feed::new(Log::First, first),
            second: Feed::new(Log::Second, second),
            walk: Walk::begin(),
        }
    }

    // The next step of the walk, on the bytes that wait.
    pub fn step(&self) -> Step
        ensures { result ≡ next_step self.now }
    {
        self.walk.step(self.first.ahead(), self.second.ahead())
    }

    // A turn is its step: both logs and the walk go on by it, or more is read of the log that it wants.
    pub fn turn(&mut self, to: Output, step: Step) -> Result<(), Stopped>
        requires { step ≡ next_step self.old }
        ensures comes { Comes self.old result self.new step }
        ensures less_left { LessLeft self.old result self.new step }
    {
        match step {
            Step::Wants(log) => match log {
                Log::First => return self.first.read_on(to),
                Log::Second => return self.second.read_on(to),
            },
            Step::Row {
                first,
                second,
                next,
                ..
            } => {
                self.first.pass(first);
                self.second.pass(second);
                self.walk = next;
            }
            Step::Pair { next, .. } => self.walk = next,
            Step::Over => {}
        }
        Ok(())
    }
}
