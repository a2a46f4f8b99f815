// Words in their order.
ghost use Rattle.std.specs.Prelude.{◌≡◌, ◌<◌, ◌≤◌, ◌∷◌, ◌++◌, [], length, map, filter, take, OnOk, OnErr, IfOk};
ghost use Rattle.host_types.specs.Words as spec;

use host_types::{Bytes, LineList};
use std::alloc::{AllocError, Global};

/// The greatest length of a word in bytes; what is longer is cut.
pub(crate) const LONGEST_WORD: usize = 32;

/// The first 32 bytes of a run, or as many as there are.
#[tactic(auto, using(crate::proofs::Runs::whole_run))]
fn front(run: &[u8]) -> &[u8]
    ensures front { result.now ≡ take 32 run.now }
    ensures short { length result.now ≤ 32 }
{
    if run.len() <= LONGEST_WORD {
        run
    } else {
        &run[..LONGEST_WORD]
    }
}

/// Puts a run as a word into the front of a buffer, and answers its length: cut to 32 bytes, in lower case. It takes no memory.
#[tactic(auto, unfolding(host_types::specs::Words::word_of))]
pub(crate) fn put_word(run: &[u8], buffer: &mut [u8; LONGEST_WORD]) -> usize
    ensures within { result ≤ 32 }
    ensures word { take result buffer.new ≡ spec.word_of run.now }
{
    let kept = front(run);
    buffer[..kept.len()].copy_from_slice(kept);
    buffer[..kept.len()].make_ascii_lowercase();
    kept.len()
}

/// The letters and digits in front of some bytes, and what stands behind the first byte that is neither.
#[tactic(auto, using(crate::proofs::Runs::still_no_gap, crate::proofs::Runs::one_run))]
pub(crate) fn first_run(bytes: &[u8]) -> (&[u8], &[u8])
    ensures words { map spec.word_of (filter spec.is_some_run (result.0.now ∷ [])) ++ spec.words_in result.1.now ≡ spec.words_in bytes.now }
    ensures fewer { 0 < length bytes.now → length result.1.now < length bytes.now }
{
    for place in 0..bytes.len() {
        let byte = bytes[place];
        if !byte.is_ascii_alphanumeric() {
            return (&bytes[..place], &bytes[place + 1..]);
        }
    }
    (bytes, &[])
}

/// Adds a run that has ended as a word, if it has bytes.
fn end_run(alloc: Global, words: &mut LineList, run: &[u8]) -> Result<(), AllocError>
    ensures words { OnOk result (words.new ≡ words.old ++ map spec.word_of (filter spec.is_some_run (run.now ∷ []))) }
    ensures memory { OnErr result (0 < length run.now) }
{
    if run.is_empty() {
        return Ok(());
    }
    let mut buffer = [0; LONGEST_WORD];
    let length = put_word(run, &mut buffer);
    words.push(Bytes::from_slice(alloc, &buffer[..length])?)?;
    Ok(())
}

/// The words of some bytes in their order, however many: the longest runs of ASCII letters and digits.
#[tactic(auto, using(crate::proofs::Runs::run_on, crate::proofs::Runs::none_left))]
pub fn words_in(alloc: Global, bytes: &[u8]) -> Result<LineList, AllocError>
    ensures { IfOk result (λ words. words ≡ spec.words_in bytes.now) }
{
    let mut words = LineList::new(alloc);
    let mut left = bytes;
    while !left.is_empty() {
        let (run, rest) = first_run(left);
        end_run(alloc, &mut words, run)?;
        left = rest;
    }
    Ok(words)
}
