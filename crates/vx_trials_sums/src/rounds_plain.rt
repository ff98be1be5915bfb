//! A second count of ranked ballots: every ballot in every round.

use std::alloc::{AllocError, Global};
use vx_rounds::Rankings;

fn stands(standing: &[bool], candidate: u32) -> bool {
    standing.get(candidate as usize).copied().unwrap_or(false)
}

fn choice(ranking: &[u32], standing: &[bool]) -> Option<u32> {
    for candidate in ranking {
        if stands(standing, *candidate) {
            return Some(*candidate);
        }
    }
    None
}

fn count(rankings: &Rankings, standing: &[bool], candidate: u32) -> u64 {
    let mut count = 0u64;
    for ranking in rankings.as_slice() {
        if choice(ranking.as_slice(), standing) == Some(candidate) {
            count = count.saturating_add(1);
        }
    }
    count
}

fn exhausted(rankings: &Rankings, standing: &[bool]) -> u64 {
    let mut count = 0u64;
    for ranking in rankings.as_slice() {
        if choice(ranking.as_slice(), standing).is_none() {
            count = count.saturating_add(1);
        }
    }
    count
}

/// The candidate that goes out of those that stand, and the winner, told of one round.
fn push_round(
    text: &mut String,
    candidates: u32,
    rankings: &Rankings,
    standing: &[bool],
) -> Result<(Option<u32>, Option<u32>), AllocError> {
    let exhausted = exhausted(rankings, standing);
    let total = (rankings.len() as u64).saturating_sub(exhausted);
    let mut winner = None;
    let mut out = None;
    let mut least = u64::MAX;
    for candidate in 0..candidates {
        if stands(standing, candidate) {
            let count = count(rankings, standing, candidate);
            write!(text, "{candidate} {count} ")?;
            if count.saturating_mul(2) > total {
                winner = Some(candidate);
            }
            if count <= least {
                least = count;
                out = Some(candidate);
            }
        }
    }
    write!(text, "exhausted {exhausted}")?;
    if total == 0 || winner.is_some() {
        return Ok((winner, None));
    }
    Ok((winner, out))
}

/// The rounds of these rankings.
pub(crate) fn plain_text(
    alloc: Global,
    candidates: u32,
    rankings: &Rankings,
) -> Result<String, AllocError> {
    let mut standing = vec![in alloc; true; candidates as usize]?;
    let mut text = String::new(alloc);
    for _round in 0..candidates {
        let (winner, out) = push_round(&mut text, candidates, rankings, standing.as_slice())?;
        match out {
            Some(out) => {
                write!(text, " out {out}; ")?;
                if let Some(stands) = standing.get_mut(out as usize) {
                    *stands = false;
                }
            }
            None => {
                match winner {
                    Some(winner) => write!(text, "; winner {winner}")?,
                    None => write!(text, "; no winner")?,
                }
                return Ok(text);
            }
        }
    }
    Ok(text)
}
