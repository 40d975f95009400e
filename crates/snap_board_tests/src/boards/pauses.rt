//! The places of pauses that seeds draw.
use snap_board::drawn_place;

// How many ticks are tried, and how many places there are.
const TICKS: u64 = 8000;

const PLACES: u64 = 8;

const SEEDS: &[u32] = &[0, 1, 2, 77, 4_294_967_295];

// The steps of the ticks of one desk, if all desks take turns.
const STEPS: &[u64] = &[1, 2, 4, 6, 16];

// At how many ticks, each a step behind the one before it, a seed draws a place.
fn count_at(seed: u32, step: u64, place: u64) -> usize {
    (0..TICKS)
        .filter(|turn| drawn_place(seed, turn.wrapping_mul(step), PLACES) == place)
        .count()
}

// Whether a number is about an eighth of that of all ticks.
fn is_eighth(count: usize) -> bool {
    850 < count && count < 1150
}

#[test]
fn each_seed_draws_each_place(rt: HostRuntime) {
    for seed in SEEDS {
        for step in STEPS {
            for place in 0..PLACES {
                assert!(rt;
                    is_eighth(count_at(*seed, *step, place)),
                    "{seed} {step} {place}"
                );
            }
        }
    }
}

// At how many ticks two seeds draw the same place.
fn count_same(one: u32, other: u32) -> usize {
    (0..TICKS)
        .filter(|tick| drawn_place(one, *tick, PLACES) == drawn_place(other, *tick, PLACES))
        .count()
}

#[test]
fn two_seeds_draw_the_same_place_by_chance_alone(rt: HostRuntime) {
    for one in SEEDS {
        for other in SEEDS {
            assert!(rt;
                one == other || is_eighth(count_same(*one, *other)),
                "{one} {other}"
            );
        }
    }
}

// What two seeds draw at the ticks from 0 on, as another program worked it out.
const DRAWN: &[(u32, [u64; 16])] = &[
    (77, [6, 7, 7, 7, 0, 2, 1, 0, 5, 1, 3, 2, 5, 5, 6, 7]),
    (
        4_294_967_295,
        [4, 7, 6, 6, 0, 2, 4, 4, 6, 1, 5, 7, 0, 4, 2, 3],
    ),
];

#[test]
fn places_are_those_of_another_program(rt: HostRuntime) {
    for (seed, places) in DRAWN {
        for (tick, place) in places.iter().enumerate() {
            assert_eq!(rt; drawn_place(*seed, tick as u64, PLACES), *place);
        }
    }
}
