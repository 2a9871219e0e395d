//! The numbers of a run as a table and as JSON.

use crate::statistics::{KINDS, Statistics};
use std::fmt;

/// The numbers of a tenant with a reservation, a line each.
#[derive(Clone, Copy)]
pub struct StatisticsTable<'a> {
    /// The numbers.
    pub statistics: &'a Statistics,
    /// The reservation in pages.
    pub reserved: u64,
}

/// The numbers as an object of JSON (RFC 8259).
#[derive(Clone, Copy)]
pub struct Object<'a>(pub StatisticsTable<'a>);

impl<'a> fmt::Display for StatisticsTable<'a> {
    fn fmt<W: fmt::Write>(&self, f: &mut fmt::Formatter<W>) -> fmt::Result {
        let (statistics, reserved) = (self.statistics, self.reserved);
        writeln!(f, "statistics:")?;
        write_line(f, "steps attempted", statistics.steps)?;
        write_line(f, "loads", statistics.loads)?;
        write_line(f, "stores", statistics.stores)?;
        write_line(f, "accesses with a tag compared", statistics.compared)?;
        write_line(f, "services answered", statistics.services)?;
        for (call, count) in KINDS.iter().zip(statistics.calls.iter()) {
            write_line(f, call.name(), *count)?;
        }
        write_line(f, "tags drawn", statistics.draws)?;
        let most = statistics.most_pages(reserved);
        writeln!(
            f,
            "  pages mapped at most          {most:>12} of {reserved}"
        )
    }
}

/// Writes a line of the table.
fn write_line<W: fmt::Write>(f: &mut fmt::Formatter<W>, name: &str, count: u64) -> fmt::Result {
    writeln!(f, "  {name:<28}  {count:>12}")
}

impl<'a> fmt::Display for Object<'a> {
    fn fmt<W: fmt::Write>(&self, f: &mut fmt::Formatter<W>) -> fmt::Result {
        let (statistics, reserved) = (self.0.statistics, self.0.reserved);
        let (steps, services) = (statistics.steps, statistics.services);
        let (loads, stores) = (statistics.loads, statistics.stores);
        write!(
            f,
            "{{\"steps\":{steps},\"loads\":{loads},\"stores\":{stores}"
        )?;
        let (compared, drawn) = (statistics.compared, statistics.draws);
        write!(
            f,
            ",\"tags_compared\":{compared},\"tags_drawn\":{drawn},\"services\":{services}"
        )?;
        for (call, count) in KINDS.iter().zip(statistics.calls.iter()) {
            let name = call.name();
            write!(f, ",\"{name}\":{count}")?;
        }
        let most = statistics.most_pages(reserved);
        write!(f, ",\"most_pages\":{most},\"reserved_pages\":{reserved}}}")
    }
}
