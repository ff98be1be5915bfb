// Ballots that are drawn, counted twice.
use crate::rounds_counting::rounds_text;
use crate::rounds_plain::plain_text;
use rand_core::{Rng, SeedableRng};
use rand_pcg::Pcg32;
use std::alloc::{AllocError, Global};
use std::test::*;
use vx_base::ListOf;
use vx_rounds::{Ranking, Rankings};

fn below(rng: &mut Pcg32, bound: u32) -> u32 {
    rng.next_u32().checked_rem(bound).unwrap_or(0)
}

fn names(ranking: &[u32], candidate: u32) -> bool {
    ranking.contains(&candidate)
}

fn ranking(alloc: Global, rng: &mut Pcg32, candidates: u32) -> Result<Ranking, AllocError> {
    let mut ranking = ListOf::new(alloc);
    for _place in 0..below(rng, 7) {
        let candidate = below(rng, candidates);
        if !names(ranking.as_slice(), candidate) {
            ranking.push(candidate)?;
        }
    }
    Ok(ranking)
}

fn rankings(alloc: Global, rng: &mut Pcg32, candidates: u32) -> Result<Rankings, AllocError> {
    let mut rankings = ListOf::new(alloc);
    for _ballot in 0..below(rng, 24) {
        rankings.push(ranking(alloc, rng, candidates)?)?;
    }
    Ok(rankings)
}

fn is_counted_twice(alloc: Global, rng: &mut Pcg32) -> Result<bool, AllocError> {
    let candidates = below(rng, 7).saturating_add(1);
    let rankings = rankings(alloc, rng, candidates)?;
    let plain = plain_text(alloc, candidates, &rankings)?;
    let text = rounds_text(alloc, candidates, rankings)?;
    Ok(text == plain)
}

#[test]
fn drawn_ballots_have_the_rounds_of_a_second_count(rt: HostRuntime) -> Result<(), Fail> {
    let alloc = rt.alloc();
    let mut rng = Pcg32::seed_from_u64(20_261_129);
    for draw in 0..2000u32 {
        assert!(rt; is_counted_twice(alloc, &mut rng)?, "draw {draw}");
    }
    Ok(())
}
