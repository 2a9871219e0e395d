//! The tenant that is moved.

use crate::checkpoints::{Checkpoints, INTERVAL};
use crate::points::Points;
use crate::stop::{StopReason, Until};
use crate::ways::{
    LastPoint, advance, is_at_svc, last_attempted, last_point, look_ahead, pass_slices,
};
use a64_bits::plain;
use debuggee::{Debuggee, MappedRegion};
use mte_tags::TagMode;
use mte_tenant::{Status, TenantParts};
use run_cause::Finding;
use std::alloc::{AllocError, Global};

/// A tenant that is moved forwards and backwards. To go back it begins at a checkpoint, or at its
/// first instruction. It holds four memories at most: its own, those of two checkpoints, and that
/// of one that looks ahead or goes back.
pub struct Traveller<'a> {
    /// The tenant where it is.
    now: Debuggee<'a>,
    /// Another one that looks ahead for accesses that are watched.
    ahead: Option<Debuggee<'a>>,
    checkpoints: Checkpoints<'a>,
    /// Whether it was said that the next instruction exits.
    is_exit_told: bool,
    /// Whether the last instruction before its end was done. It is known once it has ended.
    is_last_done: bool,
    /// What a check of the whole run finds first: there it has ended.
    finding: Option<Finding>,
}

impl<'a> Drop for Traveller<'a> {
    fn drop(self) {
        let Traveller {
            now: _,
            ahead: _,
            checkpoints: _,
            is_exit_told: _,
            is_last_done: _,
            finding: _,
        } = self;
    }
}

impl<'a> Traveller<'a> {
    /// A tenant that has not been moved, and what a check of its run finds first.
    pub fn new(tenant: Debuggee<'a>, finding: Option<Finding>) -> Traveller<'a> {
        Traveller {
            now: tenant,
            ahead: None,
            checkpoints: Checkpoints::new(),
            is_exit_told: false,
            is_last_done: false,
            finding,
        }
    }

    /// What was found of its last instruction, where it has come to that.
    pub fn finding(&self) -> Option<&Finding> {
        let steps = self.now.steps();
        self.finding
            .as_ref()
            .filter(|finding| finding.step <= steps)
    }

    /// After how many steps it moves no further: the instruction of what is found is the last.
    fn last_step(&self) -> u64 {
        match &self.finding {
            Some(finding) => finding.step,
            None => u64::MAX,
        }
    }

    /// All of its machine but the memory.
    pub fn parts(&self) -> &TenantParts {
        self.now.parts()
    }

    /// The mode of tag checks.
    pub fn mode(&self) -> TagMode {
        self.now.mode()
    }

    /// After how many steps in all no more come.
    pub fn limit(&self) -> u64 {
        self.now.limit()
    }

    /// Whether it is running, and has steps left.
    pub fn can_go_on(&self) -> bool {
        self.finding().is_none() && self.now.can_go_on()
    }

    /// How many instructions were done: all that were attempted, but for one that ended it and did
    /// nothing.
    pub fn position(&self) -> u64 {
        let steps = self.now.steps();
        if self.now.parts().is_running() || self.is_last_done {
            steps
        } else {
            steps.saturating_sub(1)
        }
    }

    /// The byte at an address of a page with READ or EXEC, whatever its tag.
    pub fn byte_at(&mut self, addr: u64) -> Option<u8> {
        self.now.byte_at(addr)
    }

    /// The tag of the granule of an address, if it can be read.
    pub fn tag_at(&mut self, addr: u64) -> Option<u8> {
        self.now.tag_at(addr)
    }

    /// The regions of its memory, the lowest first.
    pub fn regions(&mut self, alloc: Global) -> Result<Vec<MappedRegion>, AllocError> {
        self.now.regions(alloc)
    }

    /// The same tenant at its first instruction, and how many attempts it is to make to be where
    /// this one is.
    pub fn past(&self, alloc: Global) -> Result<(Debuggee<'a>, u64), AllocError> {
        Ok((self.now.anew(alloc)?, self.now.steps()))
    }

    /// Moves it forwards. One that has ended stays where it is.
    pub fn run(
        &mut self,
        alloc: Global,
        points: &Points,
        until: Until,
    ) -> Result<StopReason, AllocError> {
        if self.finding().is_some() {
            return Ok(StopReason::Ended);
        }
        if !self.now.parts().is_running() {
            return Ok(self.stop_again());
        }
        for _ in 0..u64::MAX {
            let end = self.now.slice_end().min(self.last_step());
            let stop = self.look(alloc, points, until, end)?;
            if self.finding().is_some() {
                return Ok(StopReason::Finding);
            }
            if let Some(stop) = stop {
                return Ok(stop);
            }
            if !self.now.can_go_on() {
                break;
            }
            if until == Until::Point && self.skip_slices(alloc, points) {
                return Ok(StopReason::Breakpoint);
            }
        }
        self.stop_at_end(alloc)
    }

    /// Why it has stopped where it had ended before.
    fn stop_again(&self) -> StopReason {
        match self.now.parts().history.status {
            Status::Exited(code) => StopReason::Exit(code),
            _ => StopReason::Ended,
        }
    }

    /// Moves it forwards until it has attempted `steps` instructions, one at a time; `None` where
    /// nothing stops it before that. Where accesses are watched it comes up to the instruction that
    /// makes one, and another one looks ahead.
    fn look(
        &mut self,
        alloc: Global,
        points: &Points,
        until: Until,
        steps: u64,
    ) -> Result<Option<StopReason>, AllocError> {
        if points.watchpoints().is_empty() {
            let stop = look_ahead(&mut self.now, points, until, steps);
            self.checkpoints.note(alloc, &self.now);
            return Ok(stop);
        }
        let mut ahead = self.take_ahead(alloc)?;
        ahead.watch(points.watchpoints())?;
        let stop = look_ahead(&mut ahead, points, until, steps);
        let reached = ahead.steps();
        self.ahead = Some(ahead);
        let before = match stop {
            Some(StopReason::Watch(_)) => 1,
            _ => 0,
        };
        self.move_to(alloc, reached.saturating_sub(before));
        Ok(stop)
    }

    /// Moves it forwards over the slices that meet no point; whether it came to a breakpoint.
    /// Another one passes them first; where there is no memory for that one, it stays.
    fn skip_slices(&mut self, alloc: Global, points: &Points) -> bool {
        let before = self.now.steps();
        let steps = self.steps_to_skip(alloc, points).unwrap_or(before);
        self.move_to(alloc, steps);
        steps > before && points.is_breakpoint(plain(self.now.regs().pc))
    }

    /// How many steps come before the next slice that meets a point, or in which it ends or comes
    /// to what is found.
    fn steps_to_skip(&mut self, alloc: Global, points: &Points) -> Result<u64, AllocError> {
        let mut scout = self.take_ahead(alloc)?;
        scout.watch(points.watchpoints())?;
        Ok(pass_slices(&mut scout, points, self.last_step()))
    }

    /// Moves it forwards to a number of steps, or its end. After many it leaves a checkpoint an
    /// interval before.
    fn move_to(&mut self, alloc: Global, steps: u64) {
        advance(&mut self.now, steps.saturating_sub(INTERVAL));
        self.checkpoints.note(alloc, &self.now);
        advance(&mut self.now, steps);
    }

    /// One that is where it is, to look ahead.
    fn take_ahead(&mut self, alloc: Global) -> Result<Debuggee<'a>, AllocError> {
        let steps = self.now.steps();
        if let Some(ahead) = self.ahead.take() {
            if ahead.steps() == steps {
                return Ok(ahead);
            }
        }
        self.now.copy(alloc)
    }

    /// Why it stands still where it can go on no more. An exit is told in front of its instruction
    /// first.
    fn stop_at_end(&mut self, alloc: Global) -> Result<StopReason, AllocError> {
        let status = self.now.parts().history.status;
        match status {
            Status::Running | Status::Stopped => Ok(StopReason::Limit),
            Status::Exited(code) if self.is_exit_told => Ok(StopReason::Exit(code)),
            Status::Exited(code) => {
                self.is_exit_told = true;
                let steps = self.now.steps().saturating_sub(1);
                self.go_back(alloc, steps)?;
                Ok(StopReason::BeforeExit(code))
            }
            Status::AsyncTag(pc) => {
                self.is_last_done = self.was_last_done(alloc, pc)?;
                Ok(StopReason::End)
            }
            _ => Ok(StopReason::End),
        }
    }

    /// Whether the last instruction was done where a tag that differed ended it at an address: an
    /// SVC does nothing then, and at a slice's end all others were done.
    fn was_last_done(&mut self, alloc: Global, pc: u64) -> Result<bool, AllocError> {
        let steps = self.now.steps().saturating_sub(1);
        let mut past = self.past_at(alloc, steps)?;
        Ok(past.regs().pc != pc || !is_at_svc(&mut past))
    }

    /// Moves it to a number of steps that it has passed.
    fn go_back(&mut self, alloc: Global, steps: u64) -> Result<(), AllocError> {
        let past = self.past_at(alloc, steps)?;
        self.now = past;
        Ok(())
    }

    /// The same tenant where it has attempted some steps that it has passed. The one that looks
    /// ahead gives its memory up.
    fn past_at(&mut self, alloc: Global, steps: u64) -> Result<Debuggee<'a>, AllocError> {
        self.ahead = None;
        self.checkpoints.past(alloc, &self.now, steps)
    }

    /// Moves it to a number of steps from its start on, forwards or backwards, or to its end where
    /// that comes before.
    pub fn go_to(&mut self, alloc: Global, steps: u64) -> Result<StopReason, AllocError> {
        self.is_exit_told = false;
        let steps = steps.min(self.last_step());
        if steps < self.now.steps() {
            self.go_back(alloc, steps)?;
        } else {
            self.move_to(alloc, steps);
        }
        if self.finding().is_some() {
            return Ok(StopReason::Finding);
        }
        if self.now.can_go_on() {
            Ok(StopReason::Step)
        } else {
            self.stop_at_end(alloc)
        }
    }

    /// Moves it back by one step.
    pub fn step_back(&mut self, alloc: Global) -> Result<StopReason, AllocError> {
        self.is_exit_told = false;
        let steps = self.position();
        self.go_back(alloc, steps.saturating_sub(1))?;
        Ok(if steps == 0 {
            StopReason::Start
        } else {
            StopReason::Step
        })
    }

    /// Moves it back to a breakpoint, to where an access that is watched has just been made, or to
    /// its start.
    pub fn run_back(&mut self, alloc: Global, points: &Points) -> Result<StopReason, AllocError> {
        self.is_exit_told = false;
        let (found, stop) = self.last_point(alloc, points)?;
        self.go_back(alloc, found)?;
        Ok(stop)
    }

    /// The last point on its way that stops it when it moves back: after how many steps, and why.
    /// It is sought in the last interval first, then in longer ones.
    fn last_point(
        &mut self,
        alloc: Global,
        points: &Points,
    ) -> Result<(u64, StopReason), AllocError> {
        let mut end = self.position();
        let mut length = INTERVAL;
        self.ahead = None;
        for _ in 0..u64::BITS {
            if end == 0 || points.is_empty() {
                return Ok((0, StopReason::Start));
            }
            let start = end.saturating_sub(length);
            let found = self.search(alloc, points, start, end)?;
            match found {
                Some(LastPoint::At(step, stop)) => return Ok((step, stop)),
                Some(LastPoint::In(first, last)) => return self.find_in(alloc, points, first, last),
                None => {}
            }
            end = start;
            length = length.saturating_mul(2);
        }
        Ok((0, StopReason::Start))
    }

    /// The last point between two numbers of steps, both of which it has passed.
    fn search(
        &mut self,
        alloc: Global,
        points: &Points,
        start: u64,
        end: u64,
    ) -> Result<Option<LastPoint>, AllocError> {
        let mut past = self.checkpoints.past_of_search(alloc, &self.now, start)?;
        past.watch(points.watchpoints())?;
        Ok(last_point(&mut past, points, end))
    }

    /// The same where a slice between them is known to meet one: after how many steps, and why.
    fn find_in(
        &mut self,
        alloc: Global,
        points: &Points,
        start: u64,
        end: u64,
    ) -> Result<(u64, StopReason), AllocError> {
        let mut past = self.checkpoints.past(alloc, &self.now, start)?;
        past.watch(points.watchpoints())?;
        let found = last_attempted(&mut past, points, end);
        Ok(found.unwrap_or((start, StopReason::Breakpoint)))
    }
}
