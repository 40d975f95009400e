//! The pictures of witnesses of worked histories, line by line.
use super::asking::answered;
use super::checks::{history, same};
use snap_runs::Question;
use std::test::Fail;

// The first call is not kept, so that the calls 2 to 4 are the calls 1 to 3 of the witness.
#[test]
fn a_call_of_a_witness_has_its_number_in_the_run(rt: HostRuntime) -> Result<(), Fail> {
    let alloc = rt.alloc();
    let text = history(
        alloc,
        "begin,0,update,0:1:7\nend,0,update,\nbegin,0,update,0:2:1234567\nbegin,1,view,\n\
         end,1,view,0:2:1234567\nbegin,2,view,\nend,2,view,0:1:7\n",
    )?;
    let picture = "\
regular, and not atomic

record  2               3               4               5               6
p0      [!1 update 0:1:1234567 =========================================================>
        read, call 2 of the run
p1                      (!2 view 0:1:12…)
                        read, call 3 of the run
p2                                                      (!3 view -------)
                                                        read, call 4 of the run
[ ] update  ( ) view  > no end  ! call of a fault, its kind below

read: view 2 shows more of component 0 than view 3, and had ended before that view began

calls whose labels are cut
  call 2 (call 3 of the run) of process 1, records 3 and 4: view 0:1:1234567
";
    same(
        answered(&rt, alloc, Question::WitnessDrawn, text.as_bytes())?,
        ("regular", String::from_str(alloc, picture)?),
    )
}

// Its calls have the numbers that they have in the run.
#[test]
fn an_atomic_history_has_one_number_for_a_call(rt: HostRuntime) -> Result<(), Fail> {
    let alloc = rt.alloc();
    let text = history(alloc, "begin,1,view,\nend,1,view,\n")?;
    let picture = "\
atomic

record  2               3
p1      (1 view --------)
        #1
[ ] update  ( ) view  > no end  # place in the printed order, below
";
    same(
        answered(&rt, alloc, Question::WitnessDrawn, text.as_bytes())?,
        ("atomic", String::from_str(alloc, picture)?),
    )
}
