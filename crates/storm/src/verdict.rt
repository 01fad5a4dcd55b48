use crate::tally::Tally;
use system::{Line, Premise};

// What a report says of the promise and its premises.
#[derive(Clone, Copy, Default)]
pub struct Verdict {
    pub broken: Option<Premise>,
    // an address that two used
    pub two: Option<Line>,
}

impl Verdict {
    // Reads a report, and counts the faults in it.
    pub fn of(report: &[Line], tally: &mut Tally) -> Verdict {
        let mut verdict = Verdict::default();
        for line in report {
            match *line {
                Line::Fault(_, fault) => tally.count_fault(fault),
                Line::Broken(premise) => verdict.broken = Some(premise),
                Line::Two { .. } => verdict.two = Some(*line),
                Line::Tick { .. } | Line::User { .. } => {}
            }
        }
        verdict
    }

    // The line for which a run within the premises is refused.
    pub fn refused(self) -> Option<Line> {
        self.broken.map(Line::Broken).or(self.two)
    }
}
