//! The report of a tenant as a log in the Static Analysis Results Interchange Format (SARIF
//! 2.1.0), which editors and forges show beside the source.

use crate::document::Document;
use mte_backtrace::{CallStack, FrameNames, Quoted};
use mte_flat::Flat;
use mte_report::{Context, Explanation, Report};
use mte_svc::Status;
use run_cause::{Cause, end_words};
use run_records::{BookEntry, EntryText};
use std::alloc::Global;
use std::io;
use std::io::Write;

/// Where the schema of the format is.
const SCHEMA: &str = "https://json.schemastore.org/sarif-2.1.0.json";

impl<'a> Document<'a> {
    /// Writes it as a log with one run. It has no result for a tenant that exited; else one, with
    /// the calls that led to its end and to the heap calls of its cause, and a flow through these.
    /// In front of it is one for each place of what was found in a run that went on after it.
    pub fn write_sarif<W: Write>(&self, out: &mut W, memory: &mut Flat) -> io::Result<()> {
        write_head(out)?;
        let report = self.report;
        let is_clean = report.finding.is_none()
            && matches!(report.parts.history.status, Status::Exited(_));
        if report.has_findings() {
            write_found(self.alloc, out, report)?;
            if !is_clean {
                write!(out, ",")?;
                write_result(self.alloc, out, report, memory)?;
            }
        } else if is_clean {
            write!(out, "}}}},\n\"results\":[")?;
        } else {
            write_result(self.alloc, out, report, memory)?;
        }
        write!(
            out,
            "],\n\"invocations\":[{{\"executionSuccessful\":{is_clean},"
        )?;
        let exit_status = self.exit_status;
        writeln!(out, "\"exitCode\":{exit_status}}}]}}]}}")?;
        out.flush()
    }
}

/// Writes a result for each place of what was found in a run that went on after it.
fn write_found<W: Write>(alloc: Global, out: &mut W, report: &Report<'_>) -> io::Result<()> {
    write!(out, "}}}},\n\"results\":[")?;
    let mut front = "";
    for place in report.found_places() {
        write!(out, "{front}")?;
        let explanation = report.explain_found(alloc, place)?;
        let report = report.at_finding(place);
        write_explained(alloc, out, &report, &explanation, false)?;
        front = ",";
    }
    Ok(())
}

/// Writes the rule and the result.
fn write_result<W: Write>(
    alloc: Global,
    out: &mut W,
    report: &Report<'_>,
    memory: &mut Flat,
) -> io::Result<()> {
    let explanation = report.explain(alloc, memory)?;
    let has_rules = !report.has_findings();
    write_explained(alloc, out, report, &explanation, has_rules)
}

/// Writes the rule, where the log has rules, and the result, by what is known of the end.
fn write_explained<W: Write>(
    alloc: Global,
    out: &mut W,
    report: &Report<'_>,
    explanation: &Explanation<'_>,
    has_rules: bool,
) -> io::Result<()> {
    match &explanation.cause {
        Some(cause) => {
            let context = Context {
                alloc,
                report,
                names: &explanation.names,
            };
            write_rule(out, cause.rule(), has_rules)?;
            write_judged(out, &context, &explanation.stack, cause)
        }
        None => {
            let words = end_words(&report.parts.history.status);
            let end = Site {
                text: words.text,
                names: &explanation.names,
                stack: &explanation.stack,
            };
            write_rule(out, words.rule, has_rules)?;
            end.write_end(out)?;
            begin_flow(out)?;
            end.write_last(out)
        }
    }
}

/// Writes the result of an end whose cause is judged.
fn write_judged<W: Write>(
    out: &mut W,
    context: &Context<'_>,
    stack: &CallStack,
    cause: &Cause,
) -> io::Result<()> {
    let found = context.report.found(cause);
    let text = format!(in context.alloc; "{found}")?;
    let end = Site {
        text: text.as_str(),
        names: context.names,
        stack,
    };
    end.write_end(out)?;
    write_calls(out, context, cause)?;
    write_flow(out, context, cause)?;
    end.write_last(out)
}

/// A heap call: its text, and the calls that led to it.
#[derive(Drop)]
struct CallSite {
    text: String,
    stack: CallStack,
}

impl CallSite {
    /// The site of a heap call.
    fn of(context: &Context<'_>, entry: &BookEntry) -> io::Result<CallSite> {
        let call = EntryText(entry);
        let text = format!(in context.alloc; "{call}")?;
        let stack = context.report.stack_of(context.alloc, entry)?;
        Ok(CallSite { text, stack })
    }

    /// Writes it with the names of its addresses.
    fn named<'s>(&'s self, names: &'s FrameNames<'s>) -> Site<'s> {
        Site {
            text: self.text.as_str(),
            names,
            stack: &self.stack,
        }
    }
}

/// Writes the calls that led to each heap call of a cause, each stack after a comma.
fn write_calls<W: Write>(out: &mut W, context: &Context<'_>, cause: &Cause) -> io::Result<()> {
    for entry in cause.calls().iter() {
        if let Some(entry) = entry {
            let site = CallSite::of(context, entry)?;
            site.named(context.names).write_stack(out, ",")?;
        }
    }
    Ok(())
}

/// Writes the locations of the heap calls of a cause, a comma after each.
fn write_flow<W: Write>(out: &mut W, context: &Context<'_>, cause: &Cause) -> io::Result<()> {
    begin_flow(out)?;
    for entry in cause.calls().iter() {
        if let Some(entry) = entry {
            let site = CallSite::of(context, entry)?;
            site.named(context.names).write_step(out, ",")?;
        }
    }
    Ok(())
}

/// Writes what is in front of the rules.
fn write_head<W: Write>(out: &mut W) -> io::Result<()> {
    writeln!(out, "{{\"$schema\":\"{SCHEMA}\",")?;
    writeln!(out, "\"version\":\"2.1.0\",")?;
    write!(
        out,
        "\"runs\":[{{\"tool\":{{\"driver\":{{\"name\":\"mte_run\","
    )?;
    write!(out, "\"version\":\"1.0\"")
}

/// Writes the rule of a result, where the log has rules, and what a result begins with.
fn write_rule<W: Write>(out: &mut W, rule: &str, has_rules: bool) -> io::Result<()> {
    if !has_rules {
        return writeln!(out, "{{\"ruleId\":\"{rule}\",\"level\":\"error\",");
    }
    writeln!(out, ",\"rules\":[{{\"id\":\"{rule}\"}}]}}}},")?;
    write!(out, "\"results\":[{{\"ruleId\":\"{rule}\",")?;
    writeln!(out, "\"ruleIndex\":0,\"level\":\"error\",")
}

/// Ends the list of stacks and begins the flow.
fn begin_flow<W: Write>(out: &mut W) -> io::Result<()> {
    write!(
        out,
        "],\n\"codeFlows\":[{{\"threadFlows\":[{{\"locations\":["
    )
}

/// Where something happened: what it was, and the calls that led there.
#[derive(Clone, Copy)]
struct Site<'a> {
    text: &'a str,
    names: &'a FrameNames<'a>,
    stack: &'a CallStack,
}

impl<'a> Site<'a> {
    /// Writes the message, the location and the stack of an end, and leaves the list of stacks
    /// open.
    fn write_end<W: Write>(&self, out: &mut W) -> io::Result<()> {
        let text = Quoted(self.text);
        writeln!(out, "\"message\":{{\"text\":{text}}},")?;
        write!(out, "\"locations\":[")?;
        self.stack.write_sarif_location(out, self.names, self.text)?;
        write!(out, "],\n\"stacks\":")?;
        let end = Site {
            text: "the end",
            ..*self
        };
        end.write_stack(out, "[")
    }

    /// Writes the stack after what is in front of it.
    fn write_stack<W: Write>(&self, out: &mut W, front: &str) -> io::Result<()> {
        let text = Quoted(self.text);
        write!(out, "{front}{{\"message\":{{\"text\":{text}}},\"frames\":")?;
        self.stack.write_sarif_frames(out, self.names)?;
        write!(out, "}}")
    }

    /// Writes a location of the flow, and what is after it.
    fn write_step<W: Write>(&self, out: &mut W, behind: &str) -> io::Result<()> {
        write!(out, "{{\"location\":")?;
        self.stack.write_sarif_location(out, self.names, self.text)?;
        write!(out, "}}{behind}")
    }

    /// Writes the last location of the flow, and ends the result.
    fn write_last<W: Write>(&self, out: &mut W) -> io::Result<()> {
        self.write_step(out, "]}]}]}")
    }
}
