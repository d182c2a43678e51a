//! Takes and frees of the test-and-set registers.

ghost use Rattle.std.specs.Prelude.{◌≡◌, ◌<◌, IfOk, Some, if◌then◌else◌};
ghost use Rattle.lab_plain.specs.Meaning.{free_made, holder_of, is_holder, take_made, unmet_take};
ghost use Rattle.lab_run.specs.Benches.{StandsOnBench, BenchStands, bench_stand};

use crate::bench::Bench;
use lab_plain::{Said, Stopped};
use scc_base::CoreId;
use scc_proto::Port;
use std::alloc::AllocError;

/// Why a lab stops at a take that returned this answer, if it does.
fn check_take(line: u32, took: bool, expect: Option<bool>) -> Option<Stopped>
    ensures { result ≡ unmet_take line took expect }
{
    match expect {
        Some(expected) => {
            if took == expected {
                None
            } else {
                Some(Stopped::Take { line, took })
            }
        }
        None => None,
    }
}

/// The core that has a register after a take that returned this answer.
fn holder_after(took: bool, core: CoreId, holder: Option<u8>) -> Option<u8>
    ensures { result ≡ (if took then Some core else holder) }
{
    if took { Some(core.number()) } else { holder }
}

impl Bench {
    /// Whether a core has a register.
    fn has(&self, core: CoreId, register: CoreId) -> bool
        ensures { result ≡ is_holder core (holder_of self.now.holders register) }
    {
        match self.holders[register.number() as usize] {
            Some(holder) => holder == core.number(),
            None => false,
        }
    }

    /// The core that runs reads a register.
    pub(crate) fn take(
        &mut self,
        line: u32,
        core: CoreId,
        register: CoreId,
        expect: Option<bool>,
    ) -> Result<Option<Stopped>, AllocError>
        requires stands { BenchStands self.old }
        requires turn { self.old.chip.rank ≡ core }
        requires below { core < 48 }
        ensures { IfOk result (λ stopped. StandsOnBench (take_made line core register expect (bench_stand self.old)
            (holder_of self.old.holders register)) stopped self.new) }
    {
        if self.has(core, register) {
            return Ok(Some(Stopped::Holds {
                line,
                core,
                register,
            }));
        }
        let place = register.number() as usize;
        let took = self.chip.take(register);
        self.chip.tells();
        self.holders[place] = holder_after(took, core, self.holders[place]);
        self.said.push(Said::Takes {
            core,
            register,
            took,
        })?;
        Ok(check_take(line, took, expect))
    }

    /// The core that runs frees a register.
    pub(crate) fn free(
        &mut self,
        line: u32,
        core: CoreId,
        register: CoreId,
    ) -> Result<Option<Stopped>, AllocError>
        requires stands { BenchStands self.old }
        requires turn { self.old.chip.rank ≡ core }
        requires below { core < 48 }
        ensures { IfOk result (λ stopped. StandsOnBench (free_made line core register (bench_stand self.old)
            (holder_of self.old.holders register)) stopped self.new) }
    {
        if !self.has(core, register) {
            return Ok(Some(Stopped::HoldsNot {
                line,
                core,
                register,
            }));
        }
        let place = register.number() as usize;
        self.chip.free(register);
        self.holders[place] = None;
        self.said.push(Said::Frees { core, register })?;
        Ok(None)
    }
}
