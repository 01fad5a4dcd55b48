ghost use Rattle.std.specs.Prelude.{◌≡◌, ◌++◌, [], IfOk, OnOk, string_bytes};
ghost use Rattle.system.specs.Promise.{names_two};
ghost use Rattle.printing.specs.Text.{ended, line_text, pending_after, separated};
ghost use Rattle.printing.specs.declared.printer.Pending.TheVariants.{Nothing};

use std::alloc::{AllocError, Global};
use std::fmt::Write;
use system::Line;

// How far the line of a tick has come.
#[derive(Clone, Copy)]
enum Pending {
    Nothing,
    Tick,
    Users,
}

// The text of a report, one line after the other.
#[derive(Drop)]
pub struct Printer {
    text: String,
    pending: Pending,
}

// Whether a line names an address that two use.
pub fn is_two(line: Line) -> bool
    ensures { result ≡ names_two line }
{
    matches!(line, Line::Two { .. })
}

impl Pending {
    fn after(line: Line) -> Pending
        ensures { result ≡ pending_after line }
    {
        match line {
            Line::Tick { .. } => Pending::Tick,
            Line::User { .. } => Pending::Users,
            _ => Pending::Nothing,
        }
    }

    // What ends the line where no more users follow.
    fn end(self) -> &'static str
        ensures { result.now ≡ ended self }
    {
        match self {
            Pending::Nothing => "",
            Pending::Tick => "nobody\n",
            Pending::Users => "\n",
        }
    }

    // What stands before one more user.
    fn separator(self) -> &'static str
        ensures { result.now ≡ separated self }
    {
        match self {
            Pending::Users => ", ",
            _ => "",
        }
    }
}

fn write_line(text: &mut String, pending: Pending, line: Line) -> Result<(), AllocError>
    ensures { OnOk result (string_bytes text.new ≡ string_bytes text.old ++ line_text pending line) }
{
    let end = pending.end();
    match line {
        Line::Fault(party, fault) => {
            let number = fault.number();
            writeln!(text, "{end}{party}: fault {number}")
        }
        Line::Broken(premise) => writeln!(text, "{end}premise: {premise}"),
        Line::Two {
            address,
            first,
            second,
        } => writeln!(text, "{end}two use {address}: {first} and {second}"),
        Line::Tick { clock } => write!(text, "{end}{clock}: "),
        Line::User { client, address } => {
            let separator = pending.separator();
            write!(text, "{separator}{client} uses {address}")
        }
    }
}

impl Printer {
    pub fn new(heap: Global) -> Printer
        ensures text { string_bytes result.text ≡ [] }
        ensures pending { result.pending ≡ Nothing }
    {
        Printer {
            text: String::new(heap),
            pending: Pending::Nothing,
        }
    }

    pub fn put(&mut self, line: Line) -> Result<(), AllocError>
        ensures text { OnOk result (string_bytes self.new.text ≡ string_bytes self.old.text ++ line_text self.old.pending line) }
        ensures pending { OnOk result (self.new.pending ≡ pending_after line) }
    {
        write_line(&mut self.text, self.pending, line)?;
        self.pending = Pending::after(line);
        Ok(())
    }

    // The text of all lines so far, the last of them ended.
    pub fn text(self) -> Result<String, AllocError>
        ensures { IfOk result (λ text. string_bytes text ≡ string_bytes self.text ++ ended self.pending) }
    {
        let Printer { mut text, pending } = self;
        text.push_str(pending.end())?;
        Ok(text)
    }
}
