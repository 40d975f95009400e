//! Tallies by several workers, and the claims of pieces.
ghost use Rattle.std.specs.Prelude.{◌≡◌, All, IfOk};
ghost use Rattle.snap_threads.specs.Claiming.{IsClaimOf};

use snap_conditions::{IntegrityFault, ProximityFault, ReadFault, Side, Tally};
use snap_core::{Gate, OpenGate};
use snap_index::Index;
use snap_pairs::{Claim, Claims, tally};
use snap_testing::worked::{ATOMIC_RUN, CROSSED_VIEWS, FOUR_WAYS, STALE_AND_WRONG};
use snap_testing::{Held, Meeting, Step, entry, history_of};
use snap_threads::Cutting;
use std::alloc::{AllocError, Global};
use std::process::Abort;
use std::test::Fail;
use std::thread::Threads;

// Five views, one after another, that show three different numbers far apart.
const FEW_FAR_NUMBERS: &[Step<'static>] = &[
    Step::View(0),
    Step::Viewed(0, &[(0, 4_000_000_000, 1)]),
    Step::View(0),
    Step::Viewed(0, &[(0, 7, 1)]),
    Step::View(0),
    Step::Viewed(0, &[(0, 4_000_000_000, 1)]),
    Step::View(0),
    Step::Viewed(0, &[(0, 2_000_000_000, 1)]),
    Step::View(0),
    Step::Viewed(0, &[(0, 7, 1)]),
];

// The tally of a history by a cutting.
fn tally_cut<R: Threads + Sync, G: Gate>(
    rt: &R,
    alloc: Global,
    steps: &[Step<'_>],
    cutting: Cutting,
    gate: &G,
) -> Result<Tally, Fail> {
    let history = history_of(alloc, steps)?;
    let index = Index::build(alloc, &history)?;
    Ok(tally(rt, alloc, &index, cutting, gate)?)
}

// The tally of a history by `workers` workers in `pieces` pieces.
fn tally_by<R: Threads + Sync, G: Gate>(
    rt: &R,
    alloc: Global,
    steps: &[Step<'_>],
    pieces: u32,
    workers: u32,
    gate: &G,
) -> Result<Tally, Fail> {
    tally_cut(rt, alloc, steps, Cutting::new(pieces, workers)?, gate)
}

// The tally of a history, which every cutting gives.
fn tally_by_every_cutting<R: Threads + Sync>(
    rt: &R,
    alloc: Global,
    steps: &[Step<'_>],
) -> Result<Tally, Fail> {
    let first = tally_by(rt, alloc, steps, 1, 1, &OpenGate)?;
    for pieces in [1, 2, 1024] {
        for workers in [1, 2, 8] {
            let other = tally_by(rt, alloc, steps, pieces, workers, &OpenGate)?;
            if other != first {
                return Err(Fail::new(format_args!(
                    "{pieces} pieces and {workers} workers give another tally"
                )));
            }
        }
    }
    Ok(first)
}

fn counts(tally: &Tally) -> [u64; 4] {
    [
        tally.integrity.count(),
        tally.proximity.count(),
        tally.read.count(),
        tally.write.count(),
    ]
}

fn is_of_crossed_views(tally: &Tally) -> bool {
    let first = ReadFault {
        view: 2,
        other: 3,
        component: 0,
    };
    counts(tally) == [0, 0, 2, 0] && tally.read.first() == Some(first)
}

// The faults of `FOUR_WAYS`: each view is a read fault with the three others.
fn is_of_four_ways(tally: &Tally) -> bool {
    let first = ReadFault {
        view: 4,
        other: 5,
        component: 0,
    };
    counts(tally) == [0, 0, 12, 0] && tally.read.first() == Some(first)
}

fn is_of_stale_and_wrong(tally: &Tally) -> bool {
    let wrong = IntegrityFault {
        view: 2,
        entry: entry(0, 1, 9),
    };
    let stale = ProximityFault {
        view: 1,
        component: 0,
        number: 0,
        side: Side::Old,
    };
    counts(tally) == [1, 1, 0, 0]
        && tally.integrity.first() == Some(wrong)
        && tally.proximity.first() == Some(stale)
}

#[test]
fn every_cutting_gives_the_same_tally(rt: HostRuntime) -> Result<(), Fail> {
    let all = tally_by_every_cutting(&rt, rt.alloc(), CROSSED_VIEWS)?;
    assert!(rt; is_of_crossed_views(&all));
    let all = tally_by_every_cutting(&rt, rt.alloc(), ATOMIC_RUN)?;
    assert_eq!(rt; all, Tally::none());
    let all = tally_by_every_cutting(&rt, rt.alloc(), STALE_AND_WRONG)?;
    assert!(rt; is_of_stale_and_wrong(&all));
    Ok(())
}

#[test]
fn components_far_from_one_another_are_compared(rt: HostRuntime) -> Result<(), Fail> {
    let all = tally_by(&rt, rt.alloc(), FOUR_WAYS, 2, 2, &OpenGate)?;
    assert!(rt; is_of_four_ways(&all));
    Ok(())
}

// The faults of `FEW_FAR_NUMBERS`. The first view falls to the second, the fourth and the fifth. The third falls to the fourth and
// the fifth, and the fourth to the fifth.
fn is_of_few_far_numbers(tally: &Tally) -> bool {
    let first = ReadFault {
        view: 0,
        other: 1,
        component: 0,
    };
    tally.read.count() == 6 && tally.read.first() == Some(first) && tally.stale == 6
}

#[test]
fn views_of_few_far_numbers_fall_as_the_numbers_do(rt: HostRuntime) -> Result<(), Fail> {
    let all = tally_by(&rt, rt.alloc(), FEW_FAR_NUMBERS, 2, 2, &OpenGate)?;
    assert!(rt; is_of_few_far_numbers(&all));
    Ok(())
}

// The counter and the claims, with which the counter does not close.
fn still_open(counter: Claims, claims: Vec<Claim>) -> Result<(Claims, Vec<Claim>), Fail>
    requires { All (IsClaimOf counter) claims.items }
    ensures { IfOk result (λ r. (r.0 ≡ counter) × (r.1 ≡ claims)) }
{
    match counter.close(claims) {
        Ok(()) => Err(Fail::new("the counter is closed")),
        Err(both) => Ok(both),
    }
}

// The counter does not close with this claim alone, and both come back.
fn still_open_with(
    rt: &impl Abort,
    alloc: Global,
    counter: Claims,
    claim: Claim,
) -> Result<(Claims, Claim), Fail>
    requires { IsClaimOf counter claim }
    ensures { IfOk result (λ r. IsClaimOf r.0 r.1) }
{
    let (counter, mut claims) = still_open(counter, vec![in alloc; claim]?)?;
    let claim = claims.pop().expect(rt, "the claim");
    Ok((counter, claim))
}

// A claim draws this piece, or finds none left.
fn expect_draw(rt: &impl Abort, counter: &Claims, claim: &mut Claim, known: Option<u32>)
    requires { IsClaimOf counter.now claim.old }
    ensures { IsClaimOf counter.now claim.new }
{
    assert!(rt; counter.draw(claim) == known, "not {known:?}");
}

#[test]
fn a_counter_with_pieces_left_stays_open(rt: HostRuntime) -> Result<(), Fail> {
    let (counter, claims) = Claims::start(rt.alloc(), Cutting::new(3, 2)?)?;
    let (_counter, claims) = still_open(counter, claims)?;
    assert_eq!(rt; claims.len(), 2);
    Ok(())
}

#[test]
fn a_close_that_is_refused_between_two_draws_loses_no_piece(rt: HostRuntime) -> Result<(), Fail> {
    let alloc = rt.alloc();
    let (counter, mut claims) = Claims::start(alloc, Cutting::new(2, 1)?)?;
    let mut claim = claims.pop().expect(&rt, "the claim");
    expect_draw(&rt, &counter, &mut claim, Some(0));
    let (counter, mut claim) = still_open_with(&rt, alloc, counter, claim)?;
    expect_draw(&rt, &counter, &mut claim, Some(1));
    expect_draw(&rt, &counter, &mut claim, None);
    assert!(rt; counter.close(vec![in alloc; claim]?).is_ok());
    Ok(())
}

#[test]
fn two_workers_get_a_piece_each_at_the_same_time(rt: HostRuntime) -> Result<(), Fail> {
    let gate = Meeting::at_turn(0);
    let all = tally_by(&rt, rt.alloc(), CROSSED_VIEWS, 2, 2, &gate)?;
    assert!(rt; is_of_crossed_views(&all));
    assert!(rt; gate.was_held());
    Ok(())
}

// `count` views, one after another, that show one of two open updates, and then `count` views that show the other.
fn views_of_two(alloc: Global, count: u32) -> Result<Vec<Step<'static>>, AllocError> {
    let mut steps = Vec::new(alloc);
    steps.push(Step::Update(0, (0, 1, 1)))?;
    steps.push(Step::Update(1, (1, 1, 1)))?;
    for _view in 0..count {
        steps.push(Step::View(2))?;
        steps.push(Step::Viewed(2, &[(0, 1, 1)]))?;
    }
    for _view in 0..count {
        steps.push(Step::View(2))?;
        steps.push(Step::Viewed(2, &[(1, 1, 1)]))?;
    }
    Ok(steps)
}

// The faults of `views_of_two`, with 300 views each. Each view of one update is a read fault with each of the other, both ways.
fn is_of_views_of_two(tally: &Tally) -> bool {
    let first = ReadFault {
        view: 2,
        other: 302,
        component: 0,
    };
    counts(tally) == [0, 0, 180_000, 0] && tally.read.first() == Some(first)
}

#[test]
fn read_faults_of_several_blocks_are_the_same_by_every_cutting(
    rt: HostRuntime,
) -> Result<(), Fail> {
    let steps = views_of_two(rt.alloc(), 300)?;
    let all = tally_by_every_cutting(&rt, rt.alloc(), &steps)?;
    assert!(rt; is_of_views_of_two(&all));
    Ok(())
}

#[test]
fn a_worker_goes_on_to_the_next_piece_while_the_other_is_held(rt: HostRuntime) -> Result<(), Fail> {
    let gate = Held::until(1, 2);
    let all = tally_by(&rt, rt.alloc(), CROSSED_VIEWS, 4, 2, &gate)?;
    assert!(rt; is_of_crossed_views(&all));
    assert!(rt; gate.was_left());
    Ok(())
}
