// The head of a job as bytes.

ghost use Rattle.std.specs.Prelude.{◌≡◌, ◌+◌, ◌≤◌, IfErr, MatchOption, length, take, ⊤};
ghost use Rattle.page_store.specs.PageOrder.{AreSizes};
ghost use Rattle.part_codec.specs.Puts.{Puts};
ghost use Rattle.part_codec.specs.Reading.{Gives, IsBad};
ghost use Rattle.job_store.specs.JobHead.{IsHeadOf, IsNoJobHead, job_head_at, job_head_bytes, phase_byte, phase_of, side_byte, side_of, whole_head};

use crate::{ImageSide, JobHead, Phase};
use page_store::Sizes;
use part_codec::{Unread, byte_of, put_byte, put_u32, put_u64, u32_of, u64_of};
use qsr_layout::records::JOB_HEAD_BYTES;
use qsr_value::PAGE_BYTES;

/// How many bytes a body of a twin takes at most.
pub(crate) const BODY_BYTES: usize = 2 * PAGE_BYTES;

/// The byte of a phase.
fn phase_byte(phase: Phase) -> u8
    ensures { result ≡ phase_byte phase }
{
    match phase {
        Phase::Free => 0,
        Phase::Open => 1,
        Phase::Done => 2,
    }
}

/// The byte of a side.
fn side_byte(side: ImageSide) -> u8
    ensures { result ≡ side_byte side }
{
    match side {
        ImageSide::Neither => 0,
        ImageSide::First => 1,
        ImageSide::Second => 2,
    }
}

/// Puts the bytes of a head into a buffer from a place on, and answers the place behind them.
fn put_head(head: &JobHead, body: &mut [u8], at: usize) -> usize
    requires { at + JOB_HEAD_BYTES ≤ length body.old }
    ensures { Puts body.old at (job_head_bytes head.now) body.new result }
{
    let at = put_byte(phase_byte(head.phase), body, at);
    let at = put_u64(head.rows, body, at);
    let at = put_u32(head.end, body, at);
    let at = put_byte(side_byte(head.side), body, at);
    let at = put_u32(head.image_pages, body, at);
    put_u32(head.spill_used, body, at)
}

/// The bytes of a head.
pub(crate) fn head_bytes(head: &JobHead) -> [u8; JOB_HEAD_BYTES]
    ensures { result ≡ job_head_bytes head.now }
{
    let mut bytes = [0; JOB_HEAD_BYTES];
    put_head(head, &mut bytes, 0);
    bytes
}

/// The phase of a byte.
fn phase_of(byte: u8) -> Phase
    ensures { result ≡ phase_of byte }
{
    if byte == 0 {
        return Phase::Free;
    }
    if byte == 1 { Phase::Open } else { Phase::Done }
}

/// The side of a byte.
fn side_of(byte: u8) -> ImageSide
    ensures { result ≡ side_of byte }
{
    if byte == 0 {
        return ImageSide::Neither;
    }
    if byte == 1 {
        ImageSide::First
    } else {
        ImageSide::Second
    }
}

/// Reads a head that tells of what is within the areas of a store.
#[tactic(auto, unfolding(crate::specs::JobHead::job_head_at))]
fn head_of_front<'a>(sizes: &Sizes, bytes: &'a [u8]) -> Result<(JobHead, &'a [u8]), Unread>
    requires { AreSizes sizes.now }
    ensures head { Gives (λ x. (x.0, x.1.now)) result (job_head_at sizes.now bytes.now) }
    ensures bad { IfErr result IsBad }
{
    let (phase, rest) = byte_of(0, 2, bytes)?;
    let (rows, rest) = u64_of(0, u64::MAX, rest)?;
    let (end, rest) = u32_of(0, PAGE_BYTES as u32 * sizes.out, rest)?;
    let (side, rest) = byte_of(0, 2, rest)?;
    let (image_pages, rest) = u32_of(0, sizes.image, rest)?;
    let (spill_used, rest) = u32_of(0, sizes.spill, rest)?;
    let head = JobHead {
        phase: phase_of(phase),
        rows,
        end,
        side: side_of(side),
        image_pages,
        spill_used,
    };
    Ok((head, rest))
}

/// Reads a head that is all of the bytes.
#[tactic(auto, unfolding(crate::specs::JobHead::whole_head))]
fn whole_head(sizes: &Sizes, bytes: &[u8]) -> Result<JobHead, Unread>
    requires { AreSizes sizes.now }
    ensures head { Gives (λ head. head) result (whole_head sizes.now bytes.now) }
    ensures bad { IfErr result IsBad }
{
    let (head, rest) = head_of_front(sizes, bytes)?;
    if !rest.is_empty() {
        return Err(Unread::Bad { left: rest.len() });
    }
    Ok(head)
}

/// The head of the form that these bytes are.
fn head_in(bytes: &[u8], sizes: &Sizes) -> Option<JobHead>
    requires { AreSizes sizes.now }
    ensures { MatchOption result (IsNoJobHead sizes.now bytes.now) (IsHeadOf sizes.now bytes.now) }
{
    match whole_head(sizes, bytes) {
        Ok(head) => Some(head),
        Err(Unread::Bad { .. }) => None,
        // No part of a head takes memory.
        Err(Unread::Memory) => None,
    }
}

/// The head of the form that is the body of a twin, as it stands at the front of a buffer.
pub(crate) fn head_in_body(buf: &[u8; BODY_BYTES], len: usize, sizes: &Sizes) -> Option<JobHead>
    requires { AreSizes sizes.now }
    ensures head { MatchOption result (IsNoJobHead sizes.now (take len buf.now)) (IsHeadOf sizes.now (take len buf.now)) }
    ensures long { MatchOption result ⊤ (λ head. len ≡ JOB_HEAD_BYTES) }
{
    if len != JOB_HEAD_BYTES {
        return None;
    }
    head_in(&buf[..JOB_HEAD_BYTES], sizes)
}
