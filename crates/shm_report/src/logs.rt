//! The lines of logs.

ghost use Rattle.std.specs.{Prelude.{◌≡◌, ◌++◌, OnOk}, List.flat_map};
ghost use Rattle.shm_report.specs.Logs.{client_line, end_text, entry_line, log_text};

use shm_script::{End, Entry, Log, answer_text, line_text, push_number, push_text};
use std::alloc::AllocError;

/// Appends logs, each with a line for its client and a line for each of its entries.
pub fn push_logs(text: &mut Vec<u8>, logs: &[Log]) -> Result<(), AllocError>
    ensures { OnOk result (text.new.items ≡ text.old.items ++ flat_map log_text logs.now) }
{
    for log in logs {
        push_client(text, log)?;
        push_entries(text, log.entries.as_slice())?;
    }
    Ok(())
}

/// Appends the client's line of each log.
pub fn push_clients(text: &mut Vec<u8>, logs: &[Log]) -> Result<(), AllocError>
    ensures { OnOk result (text.new.items ≡ text.old.items ++ flat_map client_line logs.now) }
{
    for log in logs {
        push_client(text, log)?;
    }
    Ok(())
}

// appends the client's line
fn push_client(text: &mut Vec<u8>, log: &Log) -> Result<(), AllocError>
    ensures { OnOk result (text.new.items ≡ text.old.items ++ client_line log.now) }
{
    push_text(text, "client ")?;
    push_number(text, u64::from(log.client))?;
    push_end(text, log.entries.len(), log.end)?;
    push_text(text, "\n")
}

// appends how a client ended that has so many entries
fn push_end(text: &mut Vec<u8>, entries: usize, end: End) -> Result<(), AllocError>
    ensures { OnOk result (text.new.items ≡ text.old.items ++ end_text entries end) }
{
    match end {
        End::Ended => {
            push_text(text, " ended ")?;
            push_number(text, entries as u64)
        }
        End::Died { finished, done } => {
            push_text(text, " died ")?;
            push_number(text, u64::from(finished))?;
            push_text(text, if done { " done" } else { " undone" })
        }
    }
}

// appends a line for each entry
fn push_entries(text: &mut Vec<u8>, entries: &[Entry]) -> Result<(), AllocError>
    ensures { OnOk result (text.new.items ≡ text.old.items ++ flat_map entry_line entries.now) }
{
    for entry in entries {
        line_text(text, entry.line)?;
        push_text(text, " ")?;
        answer_text(text, entry.answer)?;
        push_text(text, "\n")?;
    }
    Ok(())
}
