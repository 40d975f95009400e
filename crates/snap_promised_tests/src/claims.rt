//! Claims, by which workers draw each piece once.
ghost use Rattle.std.specs.Prelude.{◌≡◌, All, IfOk};
ghost use Rattle.snap_threads.specs.Claiming.{IsClaimOf};

use snap_pairs::{Claim, Claims, Cutting};
use std::alloc::Global;
use std::process::Abort;
use std::test::Fail;

// The counter and the claims, with which the counter does not close.
fn still_open(counter: Claims, claims: Vec<Claim>) -> Result<(Claims, Vec<Claim>), Fail>
    requires { All (IsClaimOf counter) claims.items }
    ensures { IfOk result (λ r. (r.0 ≡ counter) × (r.1 ≡ claims)) }
{
    match counter.close(claims) {
        Ok(()) => Err(Fail::from("the counter is closed")),
        Err(both) => Ok(both),
    }
}

// The first and the second of two claims.
fn two_of(rt: &impl Abort, counter: &Claims, mut claims: Vec<Claim>) -> (Claim, Claim)
    requires { All (IsClaimOf counter.now) claims.items }
    ensures { IsClaimOf counter.now result.0 × IsClaimOf counter.now result.1 }
{
    let second = claims.pop().expect(rt, "the second claim");
    let first = claims.pop().expect(rt, "the first claim");
    (first, second)
}

// A claim draws this piece, or finds none left.
fn expect_draw(rt: &impl Abort, counter: &Claims, claim: &mut Claim, known: Option<u32>)
    requires { IsClaimOf counter.now claim.old }
    ensures { IsClaimOf counter.now claim.new }
{
    assert!(rt; counter.draw(claim) == known, "not {known:?}");
}

// The first claim draws the last piece of three, and the second finds none left, twice.
fn draw_last(rt: &impl Abort, counter: &Claims, first: &mut Claim, second: &mut Claim)
    requires first { IsClaimOf counter.now first.old }
    requires second { IsClaimOf counter.now second.old }
    ensures first { IsClaimOf counter.now first.new }
    ensures second { IsClaimOf counter.now second.new }
{
    expect_draw(rt, counter, first, Some(2));
    expect_draw(rt, counter, second, None);
    expect_draw(rt, counter, second, None);
    assert!(rt; !first.finished() && second.finished());
}

#[test]
fn each_piece_is_drawn_once_and_the_counter_closes_with_all_claims(
    rt: HostRuntime,
) -> Result<(), Fail> {
    let alloc = rt.alloc();
    let (counter, claims) = Claims::start(alloc, Cutting::new(3, 2)?)?;
    let (mut first, mut second) = two_of(&rt, &counter, claims);
    expect_draw(&rt, &counter, &mut first, Some(0));
    expect_draw(&rt, &counter, &mut second, Some(1));
    let (counter, claims) = still_open(counter, vec![in alloc; first, second]?)?;
    let (mut first, mut second) = two_of(&rt, &counter, claims);
    draw_last(&rt, &counter, &mut first, &mut second);
    let (counter, mut claims) = still_open(counter, vec![in alloc; second]?)?;
    claims.push(first)?;
    assert!(rt; counter.close(claims).is_ok());
    Ok(())
}
