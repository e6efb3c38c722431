//! The events of a printer.
ghost use Rattle.std.specs.Prelude.{◌≡◌, ◌++◌, OnOk, codes, decimal};
ghost use Rattle.usb_types.specs.Codes.{code_text};
ghost use Rattle.usb_text.specs.Print.{hex_pair};
ghost use Rattle.usb_telling.specs.Jobs.{job_text, jobs_text};

use usb_printer::Event;
use usb_text::{push_number, push_pairs};
use usb_types::{Buf, Code, Memory};

// The rest of the line of an id.
fn push_id(report: &mut Buf, text: &[u8]) -> Result<(), Memory>
    ensures { OnOk result (report.new ≡ report.old ++ (text.now ++ codes "\n")) }
{
    report.append(text)?;
    report.append(b"\n")
}

// The numbers of a job's line, each with the space after it.
fn push_counts(report: &mut Buf, number: u64, bytes: u32) -> Result<(), Memory>
    ensures { OnOk result (report.new ≡ report.old ++ (decimal number ++ codes " " ++ decimal bytes ++ codes " ")) }
{
    push_number(report, number)?;
    report.append(b" ")?;
    push_number(report, bytes as u64)?;
    report.append(b" ")
}

// The rest of the line of a job.
fn push_end(report: &mut Buf, number: u64, bytes: u32, code: Code) -> Result<(), Memory>
    ensures { OnOk result (report.new ≡ report.old ++ (decimal number ++ codes " " ++ decimal bytes ++ codes " " ++ code_text code ++ codes "\n")) }
{
    push_counts(report, number, bytes)?;
    report.append(code.text().as_bytes())?;
    report.append(b"\n")
}

// The rest of the line of the port's status.
fn push_status(report: &mut Buf, status: u8) -> Result<(), Memory>
    ensures { OnOk result (report.new ≡ report.old ++ (hex_pair status ++ codes "\n")) }
{
    push_pairs(report, &[status])?;
    report.append(b"\n")
}

fn push_job(report: &mut Buf, event: &Event) -> Result<(), Memory>
    ensures { OnOk result (report.new ≡ report.old ++ job_text event.now) }
{
    match event {
        Event::Id { text } => {
            report.append(b"id ")?;
            push_id(report, text.bytes())
        }
        Event::Job {
            number,
            bytes,
            code,
        } => {
            report.append(b"job ")?;
            push_end(report, *number, *bytes, *code)
        }
        Event::Port { status } => {
            report.append(b"port ")?;
            push_status(report, *status)
        }
    }
}

/// Adds the lines of a printer's events. An `Err` may leave some of them.
pub fn push_jobs(report: &mut Buf, events: &[Event]) -> Result<(), Memory>
    ensures { OnOk result (report.new ≡ report.old ++ jobs_text events.now) }
{
    for event in events {
        push_job(report, event)?;
    }
    Ok(())
}
