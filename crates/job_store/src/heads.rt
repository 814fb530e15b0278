// The heads of jobs, read from a store and committed to it.

ghost use Rattle.std.specs.Prelude.{◌≡◌, ◌⊎◌, ◌+◌, ◌<◌, IfOk, IfErr, OnOk, MatchResult};
ghost use Rattle.disk_model.specs.View.{After, EachImage, IsSynced, LeavesOnly, Stays};
ghost use Rattle.qsr_value.specs.Causes.{CountsAtMost, CountsFault, count_after};
ghost use Rattle.page_store.specs.Format.{CausedBy};
ghost use Rattle.page_store.specs.Store.{BeforeOrAfter, IsReady, TwinChanged, store_view};
ghost use Rattle.job_store.specs.Heads.{HasHead, HeadReplaced, IsHeadFault};
ghost use Rattle.job_store.specs.JobHead.{IsHead};

use crate::JobHead;
use crate::bytes::{BODY_BYTES, head_bytes, head_in_body};
use disk_model::Disk;
use page_store::{Store, StoreFault, Twin};
use qsr_value::Failed;

/// Reads the head of a job, 0 to 7. It is `NotStore`, with the first page of the job's twin, where the body there is no
/// head, or one that tells of more pages or bytes than the areas of the store have. It takes no memory.
pub fn head_of<D: Disk>(store: &mut Store<'_, D>, job: u8) -> Result<JobHead, StoreFault>
    requires { job < 8 }
    ensures head { IfOk result (λ head. (store_view store.old).honest → HasHead job head (store_view store.old).seen) }
    ensures form { IfOk result (λ head. IsHead store.old.sizes head) }
    ensures none { IfErr result (IsHeadFault store.old.sizes job ((store_view store.old).honest) ((store_view store.old).seen)) }
    ensures stays { Stays (store_view store.old) (store_view store.new) }
    ensures ready { IsReady store.old → IsReady store.new }
    ensures sizes { store.new.sizes ≡ store.old.sizes }
    ensures same { store.new.disk.ghost_name ≡ store.old.disk.ghost_name }
    ensures faults { MatchResult result (λ head. D.faults_of store.new.disk.now ≡ D.faults_of store.old.disk.now)
        (λ fault. CausedBy fault (D.faults_of store.old.disk.now) (D.faults_of store.new.disk.now)) }

    // Two reads of the slots' heads, and one of the body; no write and no sync.
    ensures reads { IfOk result (λ head. D.reads_of store.new.disk.now ≡ count_after 3 (D.reads_of store.old.disk.now)) }
    ensures writes { D.writes_of store.new.disk.now ≡ D.writes_of store.old.disk.now }
    ensures syncs { D.syncs_of store.new.disk.now ≡ D.syncs_of store.old.disk.now }
{
    let twin = Twin::Job(job);
    let mut buf = [0; BODY_BYTES];
    match store.current(twin, &mut buf) {
        Ok(len) => match head_in_body(&buf, len, &store.sizes) {
            Some(head) => Ok(head),
            None => Err(StoreFault::NotStore {
                page: store.page_of(twin),
            }),
        },
        Err(fault) => Err(fault),
    }
}

/// Replaces the head of a job, 0 to 7, by one that tells of no more pages and bytes than the areas of the store have. A
/// crash at any moment leaves the old or the new one. It takes no memory, and makes three device writes at most.
pub fn commit_head<D: Disk>(store: &mut Store<'_, D>, job: u8, head: &JobHead) -> Result<(), Failed>
    requires job { job < 8 }
    requires form { IsHead store.old.sizes head.now }
    ensures any_moment { IsReady store.old → LeavesOnly (store_view store.old) (store_view store.new)
        (BeforeOrAfter (HeadReplaced job head.now) (store_view store.old)) }
    ensures committed { OnOk result (IsReady store.old → EachImage (store_view store.new)
        (After (HeadReplaced job head.now) (store_view store.old))) }
    ensures synced { OnOk result (IsSynced (store_view store.new)) }
    ensures ready { OnOk result (IsReady store.old → IsReady store.new) }

    // In any case.
    ensures within { LeavesOnly (store_view store.old) (store_view store.new) (After (TwinChanged (1 + job)) (store_view store.old)) }
    ensures seen { (store_view store.old).honest → TwinChanged (1 + job) (store_view store.old).seen (store_view store.new).seen }
    ensures sizes { store.new.sizes ≡ store.old.sizes }
    ensures same { store.new.disk.ghost_name ≡ store.old.disk.ghost_name }
    ensures faults { CountsFault result (D.faults_of store.old.disk.now) (D.faults_of store.new.disk.now) }
    ensures reads { OnOk result (D.reads_of store.new.disk.now ≡ count_after 2 (D.reads_of store.old.disk.now)) }
    ensures writes { OnOk result ((D.writes_of store.new.disk.now ≡ count_after 2 (D.writes_of store.old.disk.now)) ⊎ (D.writes_of store.new.disk.now ≡ count_after 3 (D.writes_of store.old.disk.now))) }
    ensures writes_most { CountsAtMost 3 (D.writes_of store.old.disk.now) (D.writes_of store.new.disk.now) }
    ensures syncs { OnOk result (D.syncs_of store.new.disk.now ≡ count_after 3 (D.syncs_of store.old.disk.now)) }
{
    store.commit(Twin::Job(job), &head_bytes(head))
}
