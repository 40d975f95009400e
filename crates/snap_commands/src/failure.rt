//! Why a command has no exit status of its own.
ghost use Rattle.std.specs.Prelude.{◌≡◌, ◌≢◌, false, true};
ghost use Rattle.snap_check.specs.declared.fault.RunFault.TheVariants as faults;
ghost use Rattle.snap_commands.specs.Outlets.{is_closed};
ghost use Rattle.snap_commands.specs.declared.failure.Failure.TheVariants.{Run, Unheard, Words};

use crate::outlet::Outlet;
use snap_check::RunFault;
use snap_words::JobFault;
use std::alloc::AllocError;

/// Why the words of a command line have no exit status of their own.
#[derive(Drop)]
pub enum Failure {
    /// They ask for no job.
    Words(JobFault),
    /// A file was not opened, which has been said already.
    Unopened,
    /// Nobody reads the answer any more, as after `head` has seen enough. There is nothing to say about that.
    Unheard,
    /// The run of the job ended with a fault.
    Run(RunFault),
}

impl Failure {
    /// Why a run with this fault has no exit status. It wrote to the outlet.
    pub fn of_run<W>(fault: RunFault, outlet: &Outlet<W>) -> Failure
        ensures fault { (fault ≢ faults.Write) → result ≡ Run fault }
        ensures heard { is_closed outlet.now ≡ false → result ≡ Run fault }
        ensures unheard { fault ≡ faults.Write → is_closed outlet.now ≡ true → result ≡ Unheard }
    {
        match fault {
            RunFault::Write if outlet.is_closed() => Failure::Unheard,
            fault => Failure::Run(fault),
        }
    }
}

impl From<JobFault> for Failure {
    ghost from_gives = { λ fault failure. failure ≡ Words fault };

    fn from(fault: JobFault) -> Failure {
        Failure::Words(fault)
    }
}

impl From<AllocError> for Failure {
    ghost from_gives = { λ _ failure. failure ≡ Run faults.Memory };

    fn from(_error: AllocError) -> Failure {
        Failure::Run(RunFault::Memory)
    }
}

impl From<RunFault> for Failure {
    ghost from_gives = { λ fault failure. failure ≡ Run fault };

    fn from(fault: RunFault) -> Failure {
        Failure::Run(fault)
    }
}
