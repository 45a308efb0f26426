// Why there is no answer: values, their lines and their statuses.
ghost use Rattle.std.specs.Prelude.{◌≡◌, ◌++◌, IfOk, string_bytes};
ghost use Rattle.run_report.specs.Refusals.{fault_line};
ghost use Rattle.ciao_top.specs.Lines.{reason_text, reason_status, stop_text, stop_status};

use prog_data::Text;
use std::alloc::Global;
use term_core::NoMemory;

/// Why words are refused.
#[derive(Drop)]
pub(crate) enum Reason {
    /// They are no command.
    NoCommand,
    /// The files are refused, with this line.
    OfFiles(Text),
    QueryUnread,
    QueryNotExported,
    QueryNoEntry,
}

/// Why there is nothing to run.
#[derive(Drop)]
pub(crate) enum Stop {
    Refused(Reason),
    /// A file, as it is printed, could not be read.
    Unreadable(Text),
    NoMemory,
}

impl From<NoMemory> for Stop {
    ghost use Rattle.ciao_top.specs.declared.stops.Stop.TheVariants as Stop;

    ghost from_gives = { λ _ stop. stop ≡ Stop.NoMemory };

    fn from(_memory: NoMemory) -> Stop {
        Stop::NoMemory
    }
}

// A line that tells a fault.
fn fault_line(alloc: Global, told: &str) -> Result<String, NoMemory>
    ensures { IfOk result (λ text. string_bytes text ≡ fault_line told.now) }
{
    let mut text = String::from_str(alloc, "fault: ")?;
    text.push_str(told)?;
    text.push_str("\n")?;
    Ok(text)
}

// The line that tells why words are refused.
fn reason_text(alloc: Global, reason: &Reason) -> Result<String, NoMemory>
    ensures { IfOk result (λ text. string_bytes text ≡ reason_text reason.now) }
{
    match reason {
        Reason::NoCommand => fault_line(alloc, "words"),
        Reason::OfFiles(line) => Ok(String::from_str(alloc, line.as_str())?),
        Reason::QueryUnread => fault_line(alloc, "query unread"),
        Reason::QueryNotExported => fault_line(alloc, "query not exported"),
        Reason::QueryNoEntry => fault_line(alloc, "query no entry"),
    }
}

// The line of a file that could not be read.
fn unreadable_text(alloc: Global, file: &Text) -> Result<String, NoMemory>
    ensures { IfOk result (λ text. string_bytes text ≡ stop_text (Stop.Unreadable file.now)) }
{
    let mut told = String::from_str(alloc, "read ")?;
    told.push_str(file.as_str())?;
    fault_line(alloc, told.as_str())
}

/// The line that tells why there is nothing to run, none for want of memory.
pub(crate) fn stop_text(alloc: Global, stop: &Stop) -> Result<String, NoMemory>
    ensures { IfOk result (λ text. string_bytes text ≡ stop_text stop.now) }
{
    match stop {
        Stop::Refused(reason) => reason_text(alloc, reason),
        Stop::Unreadable(file) => unreadable_text(alloc, file),
        Stop::NoMemory => Ok(String::new(alloc)),
    }
}

fn reason_status(reason: &Reason) -> u8
    ensures { result ≡ reason_status reason.now }
{
    match reason {
        Reason::NoCommand => 2,
        Reason::OfFiles(_) => 3,
        Reason::QueryUnread | Reason::QueryNotExported | Reason::QueryNoEntry => 4,
    }
}

/// The status where there is nothing to run.
pub(crate) fn stop_status(stop: &Stop) -> u8
    ensures { result ≡ stop_status stop.now }
{
    match stop {
        Stop::Refused(reason) => reason_status(reason),
        Stop::Unreadable(_) => 7,
        Stop::NoMemory => 9,
    }
}
