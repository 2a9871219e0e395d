//! How the tenant is moved.

use crate::front::Front;
use crate::reply::Reply;
use gdb_packets::Action;
use gdb_travel::{Points, StopReason, Until};
use std::alloc::{AllocError, Global};

impl Front<'_> {
    /// Moves the tenant forwards. The signal of an action counts for nothing.
    pub(crate) fn resume(&mut self, alloc: Global, action: Action, reply: &mut Reply) {
        let until = match action {
            Action::Continue { .. } => Until::Point,
            Action::Step { .. } => Until::Step,
            Action::StepRange { start, end } => Until::Outside(start, end),
            Action::Stop => {
                self.put_stop(reply);
                return;
            }
        };
        let stop = self.tenant.run(alloc, &self.points, until);
        self.tell_output(&mut reply.console);
        self.tell_stop(alloc, stop, reply);
    }

    /// Moves the tenant back by one step.
    pub(crate) fn step_back(&mut self, alloc: Global, reply: &mut Reply) {
        let stop = self.tenant.step_back(alloc);
        self.tell_stop(alloc, stop, reply);
    }

    /// Moves the tenant back to a point or its start.
    pub(crate) fn run_back(&mut self, alloc: Global, reply: &mut Reply) {
        let stop = self.tenant.run_back(alloc, &self.points);
        self.tell_stop(alloc, stop, reply);
    }

    /// Begins the tenant again, with no points, as GDB expects it of one that it starts.
    pub(crate) fn run_anew(&mut self, alloc: Global, reply: &mut Reply) {
        if self.tenant.go_to(alloc, 0).is_err() {
            reply.answer.fail();
            return;
        }
        self.points = Points::new(alloc);
        self.shown = 0;
        self.stand_still(StopReason::Step);
        self.put_stop(reply);
    }

    /// Moves the tenant to a number of steps, and writes for the user where it is.
    pub(crate) fn go_to(&mut self, alloc: Global, steps: u64, reply: &mut Reply) {
        let Ok(stop) = self.tenant.go_to(alloc, steps) else {
            reply.answer.fail();
            return;
        };
        self.stand_still(stop);
        self.tell_output(&mut reply.console);
        self.tell_end(alloc, reply);
        reply.console.put(b"at step ");
        reply.console.put_decimal(self.tenant.position());
        reply.console.put(b"\n");
        reply.put_ok();
    }

    /// Notes why it has stopped, at another place than before.
    fn stand_still(&mut self, stop: StopReason) {
        self.stop = stop;
        self.file.forget();
    }

    /// Says why it has stopped.
    fn tell_stop(
        &mut self,
        alloc: Global,
        stop: Result<StopReason, AllocError>,
        reply: &mut Reply,
    ) {
        let Ok(stop) = stop else {
            reply.answer.fail();
            return;
        };
        self.stand_still(stop);
        self.tell_end(alloc, reply);
        self.put_stop(reply);
    }
}
