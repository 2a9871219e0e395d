//! A session of which one tenant is replayed.

use crate::replay::{Replayed, replay_tenant};
use mte_sched::Host;
use mte_session::{Event, Sink, StreamSink, parse_script};
use run_terms::{Failure, Options, Replay};
use std::alloc::Global;
use std::io::{BufWriter, sink};
use tenant_run::{Observer, StoreWatcher, Watcher, wants_second_run};

/// A session of which one tenant is replayed.
#[derive(Clone, Copy)]
pub struct SessionReplay<'a, 'x> {
    /// Which tenant, and the frames of the host.
    pub replay: &'a Replay,
    /// The events of the script.
    pub events: &'x [Event],
    /// The files that they name by numbers.
    pub files: &'x [Vec<u8>],
}

impl<'a, 'x> SessionReplay<'a, 'x> {
    /// Runs what the session does to the tenant, as a tenant alone is run; `None` where the session
    /// never admits it.
    pub fn run(
        &self,
        rt: &HostRuntime,
        options: &Options,
        observer: &mut Observer<'_>,
    ) -> Result<Option<Replayed>, Failure<'a>> {
        observer.shown = observer.needs();
        let found = self.first_run(rt, options, observer)?;
        let found = self.watched(rt.alloc(), options, found, observer)?;
        if let Some(found) = &found {
            self.look_back(rt.alloc(), found, observer)?;
        }
        Ok(found)
    }

    /// Finds what more runs of the tenant have to show: a store, and the branches.
    fn look_back(
        &self,
        alloc: Global,
        found: &Replayed,
        observer: &mut Observer<'_>,
    ) -> Result<(), Failure<'a>> {
        self.find_store(alloc, found, observer)?;
        if observer.wants_branches() {
            self.show_again(alloc, observer)?;
        }
        observer.end_profile(found.bench.parts.history.steps);
        Ok(())
    }

    /// The tenant after a run that writes the lines of its refused events, unless its output is to
    /// be raw.
    fn first_run(
        &self,
        rt: &HostRuntime,
        options: &Options,
        observer: &mut Observer<'_>,
    ) -> Result<Option<Replayed>, Failure<'a>> {
        if options.output.is_raw {
            return self.replayed(rt.alloc(), observer, &mut StreamSink(sink()));
        }
        let mut out = StreamSink(BufWriter::new(rt.alloc(), rt.stdout())?);
        let found = self.replayed(rt.alloc(), observer, &mut out)?;
        out.finish()?;
        Ok(found)
    }

    /// The tenant, which a second run watched if its end is explained by what that remembers.
    fn watched(
        &self,
        alloc: Global,
        options: &Options,
        found: Option<Replayed>,
        observer: &mut Observer<'_>,
    ) -> Result<Option<Replayed>, Failure<'a>> {
        let end = match &found {
            Some(found) if wants_second_run(&found.bench, options, observer) => {
                found.bench.parts.history.steps
            }
            _ => return Ok(found),
        };
        observer.restart(alloc, end)?;
        self.replayed(alloc, observer, &mut StreamSink(sink()))
    }

    /// Finds what wrote the target last of the jump to no code that ended the tenant, if one did,
    /// by one more run.
    fn find_store(
        &self,
        alloc: Global,
        found: &Replayed,
        observer: &mut Observer<'_>,
    ) -> Result<(), Failure<'a>> {
        let Some(load) = observer.target_load(&found.bench.parts.history.status) else {
            return Ok(());
        };
        let mut watcher = StoreWatcher::new(load);
        self.show_again(alloc, &mut watcher)?;
        observer.store = watcher.found();
        Ok(())
    }

    /// Shows one more run of the tenant, which is dropped in this one place: that is what a proof
    /// pays for.
    fn show_again<O: Watcher>(&self, alloc: Global, watcher: &mut O) -> Result<(), Failure<'a>> {
        let _again = self.replayed(alloc, watcher, &mut StreamSink(sink()))?;
        Ok(())
    }

    /// The tenant after all that the session does to it; `None` where it never admits it.
    fn replayed<O: Watcher, W: Sink>(
        &self,
        alloc: Global,
        watcher: &mut O,
        out: &mut W,
    ) -> Result<Option<Replayed>, Failure<'a>> {
        let Ok(mut host) = Host::new(alloc, self.replay.frames) else {
            return Err(Failure::Memory);
        };
        replay_tenant(alloc, &mut host, self, watcher, out)
    }
}

/// The events of a script, or its first faulty line.
pub fn events_of<'a>(
    alloc: Global,
    script: &[u8],
    files: &[Vec<u8>],
) -> Result<Vec<Event>, Failure<'a>> {
    match parse_script(alloc, script, files) {
        Ok(events) => Ok(events),
        Err(obstacle) => Err(Failure::of_script(&obstacle, script, files.len())),
    }
}
