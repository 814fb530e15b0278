// A window on the output area of a job: a page of it at a time, each read once as it is come to.

ghost use Rattle.std.specs.Prelude.{◌≡◌, ℕ, ◌+◌, ◌-◌, ◌*◌, ◌<◌, ◌≤◌, ◌++◌, length, take, drop, min, OnOk};
ghost use Rattle.page_store.specs.Store.{AreaHolds, Contents, store_view};
ghost use Rattle.page_store.specs.PageOrder.{job_part};
ghost use Rattle.page_store.specs.Twin.{bytes_at};
ghost use Rattle.qsr_value.specs.Causes.{CountsFault};

use disk_model::Disk;
use page_store::{Area, Store};
use qsr_value::{Failed, PAGE_BYTES};

/// The page of the output area of a job that was asked for last.
#[derive(Drop)]
pub(crate) struct Window {
    pub job: u8,
    /// The number of the page that would follow it, and 0 before the first.
    pub next: u32,
    pub bytes: [u8; PAGE_BYTES],
    ghost some_job: { job < 8 },
}

impl Window {
    ghost use Rattle.out_file.specs.Reading.{HasPage, OnlyRead, out_area};

    /// A window on the output area of a job, 0 to 7, with no page yet.
    pub(crate) fn new(job: u8) -> Window
        requires { job < 8 }
        ensures job { result.job ≡ job }
        ensures next { result.next ≡ 0 }
    {
        Window {
            job,
            next: 0,
            bytes: [0; PAGE_BYTES],
        }
    }

    /// Makes it have this page, by one device read where it hasn't.
    fn go_to<D: Disk>(&mut self, store: &mut Store<'_, D>, page: u32) -> Result<(), Failed>
        requires page { page < store.old.sizes.out }
        requires behind { self.old.next ≤ page + 1 }
        ensures bytes { OnOk result ((m : Contents) → (store_view store.old).seen ≡ m → (store_view store.old).honest → HasPage self.old m
            → AreaHolds (job_part self.old.job 4) (4096 * page) self.new.bytes m) }
        ensures job { self.new.job ≡ self.old.job }
        ensures next { self.new.next ≡ page + 1 }
        ensures read { OnlyRead store.old store.new }
        ensures faults { CountsFault result (D.faults_of store.old.disk.now) (D.faults_of store.new.disk.now) }
        ensures reads { D.reads_of store.new.disk.now + self.old.next ≤ D.reads_of store.old.disk.now + self.new.next }
    {
        if self.next == page + 1 {
            return Ok(());
        }
        self.next = page + 1;
        store.read(Area::Out(self.job), page, &mut self.bytes)
    }

    /// Copies its bytes from a place on to the front of `out`, as many as both have, and answers how many.
    fn copy_to(&self, from: usize, out: &mut [u8]) -> usize
        requires { from ≤ 4096 }
        ensures page { length self.now.bytes ≡ 4096 }
        ensures count { result ≡ min (4096 - from) (length out.old) }
        ensures bytes { out.new ≡ take result (drop from self.now.bytes) ++ drop result out.old }
    {
        let count = (PAGE_BYTES - from).min(out.len());
        out[..count].copy_from_slice(&self.bytes[from..from + count]);
        count
    }

    /// Fills `out` with the bytes of the area from this one on. The places of the calls never fall.
    pub(crate) fn fill<D: Disk>(
        &mut self,
        store: &mut Store<'_, D>,
        at: u32,
        out: &mut [u8],
    ) -> Result<(), Failed>
        requires within { at + length out.old ≤ 4096 * store.old.sizes.out }
        requires behind { 4096 * self.old.next ≤ at + 4095 }
        ensures bytes { OnOk result ((m : Contents) → (store_view store.old).seen ≡ m → (store_view store.old).honest → HasPage self.old m
            → HasPage self.new m × (out.new ≡ bytes_at (out_area self.old.job m) at (length out.old))) }
        ensures job { self.new.job ≡ self.old.job }
        ensures behind { 4096 * self.new.next ≤ at + length out.old + 4095 }
        ensures read { OnlyRead store.old store.new }
        ensures faults { CountsFault result (D.faults_of store.old.disk.now) (D.faults_of store.new.disk.now) }
        ensures reads { D.reads_of store.new.disk.now + self.old.next ≤ D.reads_of store.old.disk.now + self.new.next }
    {
        let mut done = 0;
        while done < out.len() {
            let place = at as usize + done;
            self.go_to(store, (place / PAGE_BYTES) as u32)?;
            done += self.copy_to(place % PAGE_BYTES, &mut out[done..]);
        }
        Ok(())
    }
}
