//! Histories whose components have many writers. What they must be judged comes from a search through all orders of their calls.
use crate::histories::refusal;
use snap_check::{Status, judge_text};
use snap_core::{EventRefusal, History, Limit, Writers};
use snap_testing::Step::{self, Update, Updated};
use std::test::Fail;

// The usual limit, with many writers.
fn many() -> Limit {
    Limit::usual().with_writers(Writers::Many)
}

// Steps that are tried one after the other, and why each is refused.
const STEPS: &[(Step<'static>, Option<EventRefusal>)] = &[
    (Update(0, (0, 1, 5)), None),
    (Update(1, (0, 1, 6)), Some(EventRefusal::Number)),
    (Update(1, (0, 2, 6)), None),
    (Update(2, (0, 3, 7)), None),
    (Update(3, (1, 1, 8)), None),
    (Updated(2), Some(EventRefusal::Order)),
    (Updated(1), Some(EventRefusal::Order)),
    (Updated(3), None),
    (Updated(0), None),
    (Updated(2), Some(EventRefusal::Order)),
    (Updated(0), Some(EventRefusal::Idle)),
    (Update(0, (0, 4, 5)), None),
    (Updated(1), None),
    (Updated(2), None),
    (Updated(0), None),
    (Update(3, (0, 5, 1)), None),
];

#[test]
fn updates_of_many_writers_end_in_the_order_of_their_numbers(rt: HostRuntime) -> Result<(), Fail> {
    let mut history = History::of_any(rt.alloc(), many());
    for (step, known) in STEPS {
        assert_eq!(rt; refusal(rt.alloc(), &mut history, *step)?, *known);
    }
    Ok(())
}

// Texts, and the status and the report of each where components have many writers.
const WORKED: &[(&str, Status, &str)] = &[
    (
        "event,process,op,data\nbegin,0,update,0:1:5\nbegin,1,update,0:2:6\nbegin,2,view,\nend,0,update,\n\
         end,1,update,\nend,2,view,0:2:6\n",
        Status::Atomic,
        "events 6 calls 3 pending 0 views 1\nregular yes\nmonotone yes\natomic yes\norder 3\n1 p0 update 0:1:5\n\
         2 p1 update 0:2:6\n3 p2 view 0:2:6\n",
    ),
    (
        "event,process,op,data\nbegin,0,update,0:1:5\nbegin,1,update,0:2:6\nbegin,2,view,\nend,2,view,0:2:6\n\
         begin,2,view,\nend,2,view,0:1:5\nend,0,update,\nend,1,update,\n",
        Status::Regular,
        "events 8 calls 4 pending 0 views 2\nregular yes\nmonotone no\natomic no\nread 1 first view 3 view 4 component 0\n",
    ),
    (
        "event,process,op,data\nbegin,0,update,0:1:5\nbegin,1,update,0:2:6\nend,0,update,\nend,1,update,\n\
         begin,2,view,\nend,2,view,0:1:5\n",
        Status::Irregular,
        "events 6 calls 3 pending 0 views 1\nregular no\nmonotone yes\natomic no\nproximity 1 first view 3 entry 0:1 old\n",
    ),
    (
        "event,process,op,data\nbegin,0,update,0:1:5\nbegin,1,update,0:2:6\nend,1,update,\n",
        Status::Refused,
        "refused record 4: order\n",
    ),
];

#[test]
fn each_worked_text_is_judged_with_many_writers(rt: HostRuntime) -> Result<(), Fail> {
    for (text, status, report) in WORKED {
        let (found, out) = judge_text(rt.alloc(), text.as_bytes(), many())?;
        assert!(rt;
            found == *status && out.as_slice() == report.as_bytes(),
            "{report}"
        );
    }
    Ok(())
}

#[test]
fn a_second_writer_is_refused_where_none_are_chosen(rt: HostRuntime) -> Result<(), Fail> {
    for (text, _, _) in WORKED {
        let (found, out) = judge_text(rt.alloc(), text.as_bytes(), Limit::usual())?;
        assert!(rt;
            found == Status::Refused && out.as_slice() == "refused record 3: writer\n".as_bytes()
        );
    }
    Ok(())
}
