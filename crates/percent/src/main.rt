// Lists every place where the published float percentage and the engine's rule answer differently, by lines, then dirty, then P,
// rising: a heading, a line for each, and a last line that says how many there are and how many are at a legal cache's size.
#![tactic(auto)]

use model::Refusal;
use percentage::Triple;
use std::fmt;

// Whether a share meets its percentage, in a word.
fn answer(share: Result<bool, Refusal>) -> &'static str {
    match share {
        Ok(true) => "yes",
        Ok(false) => "no",
        Err(_) => "refused",
    }
}

// One difference: lines, dirty, P, the float answer and ours.
#[derive(Clone, Copy)]
struct Line(Triple);

impl fmt::Display for Line {
    fn fmt<W: fmt::Write>(&self, f: &mut fmt::Formatter<W>) -> fmt::Result {
        let t = self.0;
        let float = answer(percentage::float_share(t));
        let ours = answer(percentage::whole_share(t));
        write!(f, "{} {} {} {float} {ours}", t.lines, t.dirty, t.percent)
    }
}

// Lists where the two percentages differ. Where standard output fails, nobody is left to tell.
fn main(rt: HostRuntime) {
    let _ = println!(rt; "lines dirty P float ours");
    let mut room = [Triple::default(); 20];
    let Some(n) = percentage::list(&mut room) else {
        let _ = println!(rt; "no room");
        return;
    };
    let found = &room[..n];
    for t in found {
        let _ = println!(rt; "{}", Line(*t));
    }
    let legal = found
        .iter()
        .filter(|t| percentage::legal_size(t.lines))
        .count();
    let _ = println!(rt; "{n} differences, {legal} at the size of a legal cache");
}
