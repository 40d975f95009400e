//! Recordings with stamps that are followed.
use super::following::{expect_followed, no_naps, options};
use snap_follow::Until;
use snap_testing::Drip;
use std::alloc::Global;
use std::sync::Wait;
use std::test::Fail;

// A recording: its text, the number of events from which on a window ends, and the most records that wait. Then the status, the lines
// of the windows, and the sums.
type Recording = (&'static str, u32, u32, u8, &'static str, &'static str);

const SWAPPED: &str = "\
at,event,process,op,data
2,end,0,update,
1,begin,0,update,0:1:7
4,end,1,view,0:1:7
3,begin,1,view,
";

const TWO_WINDOWS: &str =
    "window 1 events 2 atomic from 3 to 2\nwindow 2 events 2 atomic from 5 to 4\n";

const TWO_SUMS: &str =
    "windows 2 events 4 views 1\natomic 2 first 1\nonly-regular 0\nnot-regular 0\nrefused 0\nfailed 0\n";

const REFUSED_SUMS: &str =
    "windows 1 events 0 views 0\natomic 0\nonly-regular 0\nnot-regular 0\nrefused 1 first 1\nfailed 0\n";

const RECORDINGS: &[Recording] = &[
    // all wait to the end, or one does
    (SWAPPED, 1, 1000, 0, TWO_WINDOWS, TWO_SUMS),
    (SWAPPED, 1, 1, 0, TWO_WINDOWS, TWO_SUMS),
    // none waits, so the second comes too late
    (
        SWAPPED,
        1,
        0,
        3,
        "window 1 refused record 2: idle\n",
        REFUSED_SUMS,
    ),
    // two records late is more than one
    (
        "at,event,process,op,data\n5,begin,0,view,\n6,end,0,view,\n4,begin,1,view,\n",
        4,
        1,
        3,
        "window 1 refused record 4: late\n",
        REFUSED_SUMS,
    ),
    // the stamp of one that waits, and that of one that was judged
    (
        "at,event,process,op,data\n5,begin,0,view,\n5,end,0,view,\n",
        4,
        1000,
        3,
        "window 1 refused record 3: repeated\n",
        REFUSED_SUMS,
    ),
    (
        "at,event,process,op,data\n5,begin,0,view,\n5,end,0,view,\n",
        4,
        0,
        3,
        "window 1 refused record 3: late\n",
        REFUSED_SUMS,
    ),
    // what a record must have, and the greatest stamp
    (
        "at,event,process,op,data\n18446744073709551616,begin,0,view,\n",
        4,
        1000,
        3,
        "window 1 refused record 2: at\n",
        REFUSED_SUMS,
    ),
    (
        "at,event,process,op,data\nbegin,0,view,\n",
        4,
        1000,
        3,
        "window 1 refused record 2: fields\n",
        REFUSED_SUMS,
    ),
    (
        "at,event,process,op,data\r\n18446744073709551615,end,0,view,\r\n\r\n\"0\",begin,0,view,\r\n",
        1,
        1000,
        0,
        "window 1 events 2 atomic from 3 to 2\n",
        "windows 1 events 2 views 1\natomic 1 first 1\nonly-regular 0\nnot-regular 0\nrefused 0\nfailed 0\n",
    ),
    // the record that is refused is that whose turn it is
    (
        "at,event,process,op,data\n3,begin,0,view,\n2,end,0,view,\n1,begin,1,view,\n",
        4,
        1000,
        3,
        "window 1 refused record 3: idle\n",
        REFUSED_SUMS,
    ),
    // a view misses what was left, in the order of the stamps
    (
        "at,event,process,op,data\n9,end,1,view,\n1,begin,0,update,0:1:7\n2,end,0,update,\n8,begin,1,view,\n",
        2,
        1000,
        2,
        "window 1 events 2 atomic from 3 to 4\nwindow 2 events 2 not-regular from 5 to 2 misses 0:1:7 in record 2\n",
        "windows 2 events 4 views 1\natomic 1 first 1\nonly-regular 0\nnot-regular 1 first 2\nrefused 0\nfailed 0\n",
    ),
    // a header alone
    (
        "at,event,process,op,data\n",
        1,
        1000,
        0,
        "",
        "windows 0 events 0 views 0\natomic 0\nonly-regular 0\nnot-regular 0\nrefused 0\nfailed 0\n",
    ),
];

// A recording is judged in the same way whether its text comes whole or byte by byte, and followed to its end or for a while.
fn expect_windows<Rt: Wait>(rt: &Rt, alloc: Global, recording: &Recording) -> Result<(), Fail> {
    let (text, least, late, code, windows, sums) = *recording;
    let wanted = format!(in alloc; "{windows}{sums}")?;
    let ended = ("whole", Some(code));
    let naps = no_naps();
    for until in [Until::End, Until::Idle(1)] {
        let mut asked = options(least, 100, until, 0)?;
        asked.late = late;
        expect_followed(rt, alloc, text.as_bytes(), &naps, asked, ended, &wanted)?;
        let drip = Drip::new(text.as_bytes(), 0);
        expect_followed(rt, alloc, drip, &naps, asked, ended, &wanted)?;
    }
    Ok(())
}

#[test]
fn records_with_stamps_are_judged_in_their_order(rt: HostRuntime) -> Result<(), Fail> {
    for recording in RECORDINGS {
        expect_windows(&rt, rt.alloc(), recording)?;
    }
    Ok(())
}
