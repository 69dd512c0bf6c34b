//! What is told of a log, written line by line.

ghost use Rattle.std.specs.Prelude.{◌≤◌, flat_map, length};
ghost use Rattle.line_io.specs.Texts.{Puts};
ghost use Rattle.report_lines.specs.Lines.{added_text, dropped_text, entry_report, found_text, need_text, needs_text};

use crate::lines::{caught_line, dropped_line, entry_line, need_line};
use definitions::{Entry, Finding, Need};
use line_io::{SinkFault, put};
use station::Sink;

/// Writes what these entries, which came into the log, are told by.
fn put_entries<O: Sink>(entries: &[Entry], out: &mut O) -> Result<(), SinkFault>
    ensures { Puts (O.state out.old) (O.state out.new) (flat_map entry_report entries.now) result }
{
    'entries: for entry in entries {
        put(out, entry_line(entry).as_slice())?;
    }
    Ok(())
}

/// Writes what is told of a log's entries behind the first so many. Fails where the sink does.
#[tactic(auto, unfolding(crate::specs::Lines::added_text))]
pub fn put_added<O: Sink>(entries: &[Entry], count: usize, out: &mut O) -> Result<(), SinkFault>
    requires { count ≤ length entries.now }
    ensures { Puts (O.state out.old) (O.state out.new) (added_text count entries.now) result }
{
    put_entries(entries.split_at(count).1, out)
}

/// Writes from which byte on a log is dropped, if it is. Fails where the sink does.
pub fn put_dropped<O: Sink>(dropped: Option<u32>, out: &mut O) -> Result<(), SinkFault>
    ensures { Puts (O.state out.old) (O.state out.new) (dropped_text dropped) result }
{
    match dropped {
        None => put(out, b""),
        Some(at) => put(out, dropped_line(at).as_slice()),
    }
}

/// Writes a finding, if there is one. Fails where the sink does.
pub fn put_found<O: Sink>(found: Option<Finding>, out: &mut O) -> Result<(), SinkFault>
    ensures { Puts (O.state out.old) (O.state out.new) (found_text found) result }
{
    match found {
        None => put(out, b""),
        Some(finding) => put(out, caught_line(&finding).as_slice()),
    }
}

/// Writes these needs, and nothing where there is none. Fails where the sink does.
pub fn put_each_need<O: Sink>(needs: &[Need], out: &mut O) -> Result<(), SinkFault>
    ensures { Puts (O.state out.old) (O.state out.new) (flat_map need_text needs.now) result }
{
    'needs: for need in needs {
        put(out, need_line(need).as_slice())?;
    }
    Ok(())
}

/// Writes the needs, or that there is none. Fails where the sink does.
pub fn put_needs<O: Sink>(needs: &[Need], out: &mut O) -> Result<(), SinkFault>
    ensures { Puts (O.state out.old) (O.state out.new) (needs_text needs.now) result }
{
    match needs {
        [] => put(out, b"done\n"),
        _ => put_each_need(needs, out),
    }
}
