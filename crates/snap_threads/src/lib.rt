//! Jobs in threads that the calling thread starts, and the pieces of some work that workers share.
#![tactic(auto)]

ghost use Rattle.std.specs.Prelude.{IfOk};
ghost use Rattle.std.specs.Thread.{IsSync, IsSend};
ghost use Rattle.std.specs.Fork.{AcceptsJobs};
ghost use Rattle.std.specs.Fork.Halves.{GivesFor};

mod claims;
mod counter;
mod cutting;

pub use claims::{Claim, Claims};
pub use cutting::{Cutting, CuttingRefusal, PIECE_LIMIT, WORKER_LIMIT};
use std::alloc::{AllocError, Global};
use std::thread::{Threads, join};

/// Calls `f` at each job, in a thread of its own, or on this thread if none can be made. It calls `own` on this thread. The answers
/// are in the order of the jobs. The error is want of memory for their list: `own` is called even then.
pub fn each_job_beside<
    R: Threads + Sync,
    J: Send + Drop,
    X: Send + Drop,
    F: Fn(J) -> X + Sync,
    Y,
    H: FnOnce() -> Y,
>(rt: &R, alloc: Global, mut jobs: Vec<J>, f: &F, own: H) -> (Result<Vec<X>, AllocError>, Y)
    requires jobs { AcceptsJobs F.Fn f.now jobs.items }
    requires own { H.pre own }
    ensures jobs { IfOk result.0 (λ answers. GivesFor F.Fn f.now jobs.items answers.items) }
    ensures own { H.post own result.1 }
{
    let Some(last) = jobs.pop() else {
        return (Ok(Vec::new(alloc)), own());
    };
    let theirs = move || -> X
        requires { F.pre f.now last }
        ensures { F.post f.entry.now last result }
    { f(last) };
    let ours = move || -> (Result<Vec<X>, AllocError>, Y)
        requires { IsSync R.row × IsSync F.row × IsSend J.row × IsSend X.row × AcceptsJobs F.Fn f.now jobs.items × H.pre own }
        ensures { IfOk result.0 (λ answers. GivesFor F.Fn f.entry.now jobs.items answers.items) × H.post own result.1 }
    { each_job_beside(rt, alloc, jobs, f, own) };
    let (answer, (rest, mine)) = join(rt, theirs, ours);
    let Ok(mut all) = rest else {
        return (Err(AllocError), mine);
    };
    match all.push(answer) {
        Ok(()) => (Ok(all), mine),
        Err(_) => (Err(AllocError), mine),
    }
}

/// Calls `f` at each job. The last runs on this thread. Each other runs in a thread of its own, or on this thread if none can be
/// made. The answers are in the order of the jobs. The error is want of memory for their list.
pub fn each_job<R: Threads + Sync, J: Send + Drop, X: Send + Drop, F: Fn(J) -> X + Sync>(
    rt: &R,
    alloc: Global,
    mut jobs: Vec<J>,
    f: &F,
) -> Result<Vec<X>, AllocError>
    requires { AcceptsJobs F.Fn f.now jobs.items }
    ensures { IfOk result (λ answers. GivesFor F.Fn f.now jobs.items answers.items) }
{
    let Some(last) = jobs.pop() else {
        return Ok(Vec::new(alloc));
    };
    let (others, own) = each_job_beside(
        rt,
        alloc,
        jobs,
        f,
        move || -> X
            requires { F.pre f.now last }
            ensures { F.post f.entry.now last result }
        { f(last) },
    );
    let mut all = others?;
    all.push(own)?;
    Ok(all)
}
