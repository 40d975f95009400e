//! The whole reports of histories with several faults of a kind.
use super::checks::{Worked, cutting, expect_worked};
use snap_core::OpenGate;
use std::test::Fail;

// Histories with several faults of a kind, and a text with an entry out of order after a record without a fault.
const WORKED: &[Worked] = &[
    // two views go back from one that shows more of two components
    (
        "begin,0,update,5:1:1\nbegin,1,update,4:1:1\nbegin,2,view,\nend,2,view,4:1:1 5:1:1\n\
         begin,3,view,\nend,3,view,\nbegin,4,view,\nend,4,view,\nend,0,update,\nend,1,update,\n",
        "regular",
        "events 10 calls 5 pending 0 views 3\nregular yes\nmonotone no\natomic no\n\
         read 2 first view 3 view 4 component 4\n",
    ),
    // a view shows the two later of four updates, one after the other, and misses the two before them
    (
        "begin,2,view,\nbegin,0,update,1:1:1\nend,0,update,\nbegin,1,update,0:1:1\nend,1,update,\n\
         begin,0,update,3:1:1\nend,0,update,\nbegin,1,update,2:1:1\nend,1,update,\n\
         end,2,view,2:1:1 3:1:1\n",
        "regular",
        "events 10 calls 5 pending 0 views 1\nregular yes\nmonotone yes\natomic no\n\
         write 4 first view 1 misses 0:1 shows 2:1\n",
    ),
    // three entries of one view that nobody wrote
    (
        "begin,0,update,0:1:7\nend,0,update,\nbegin,1,view,\nend,1,view,0:1:8 1:1:5 2:3:1\n",
        "irregular",
        "events 4 calls 2 pending 0 views 1\nregular no\nmonotone yes\natomic no\n\
         integrity 3 first view 2 entry 0:1:8\n",
    ),
    // a view misses two updates, the later of which is of the lesser component
    (
        "begin,0,update,3:1:7\nend,0,update,\nbegin,1,update,2:1:8\nend,1,update,\nbegin,2,view,\n\
         end,2,view,\n",
        "irregular",
        "events 6 calls 3 pending 0 views 1\nregular no\nmonotone yes\natomic no\n\
         proximity 2 first view 3 entry 2:0 old\n",
    ),
    // entries that are not in rising order
    (
        "begin,1,view,\nend,1,view,1:1:1 0:1:1\n",
        "refused",
        "refused record 3: data\n",
    ),
];

#[test]
fn of_several_faults_of_a_kind_the_first_is_reported(rt: HostRuntime) -> Result<(), Fail> {
    for worked in WORKED {
        expect_worked(&rt, rt.alloc(), *worked, cutting(8, 2)?, &OpenGate)?;
    }
    Ok(())
}
