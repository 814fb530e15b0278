// The head of a job as bytes.

ghost use Rattle.std.specs.Prelude.{◌≡◌};
ghost use Rattle.page_store.specs.Format.{free_head};
ghost use Rattle.job_store.specs.JobHead.{AreNumbers, job_head_bytes};
ghost use Rattle.job_store.specs.declared.head.TheConstants.JobHead.{FREE};

/// How far a job is.
#[derive(Clone, Copy, Debug, PartialEq, Eq)]
pub enum Phase {
    /// There is no job.
    Free,
    /// It may have rows to come.
    Open,
    /// All its rows are acknowledged.
    Done,
}

/// Which of its two image sides has the image of a job.
#[derive(Clone, Copy, Debug, PartialEq, Eq)]
pub enum ImageSide {
    Neither,
    First,
    Second,
}

/// What a store keeps of a job beside the pages of its areas.
#[derive(Clone, Copy, Debug, PartialEq, Eq)]
pub struct JobHead {
    pub phase: Phase,
    /// How many rows are acknowledged.
    pub rows: u64,
    /// How many bytes of the output area they take.
    pub end: u32,
    pub side: ImageSide,
    /// How many pages the image has.
    pub image_pages: u32,
    /// How many spill pages had been handed out when the image was made.
    pub spill_used: u32,
}

impl JobHead {
    /// The head of a job of an empty store.
    pub const FREE: JobHead = JobHead {
        phase: Phase::Free,
        rows: 0,
        end: 0,
        side: ImageSide::Neither,
        image_pages: 0,
        spill_used: 0,
    };
}

/// A law: two heads with the same bytes are one, and those of a free job are what an empty store has. A call does nothing,
/// and a proof after it knows the law.
pub const fn heads_differ()
    ensures differ { (a b : JobHead) → AreNumbers a → AreNumbers b → job_head_bytes a ≡ job_head_bytes b → a ≡ b }
    ensures free { job_head_bytes FREE ≡ free_head }
{}
