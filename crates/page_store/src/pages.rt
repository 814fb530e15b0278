// Where each part of a store stands on its disk.

ghost use Rattle.std.specs.Prelude.{◌≡◌, ◌+◌, ◌*◌, ◌^◌, ◌<◌, ◌≤◌, ℕ, length, slice_index, sum};
ghost use Rattle.page_store.specs.PageOrder.{AreSizes, IsArea, IsOfOnePart, area_pages, job_part, parts, part_of, start_of};
ghost use Rattle.page_store.specs.Store.{IsTwin, twin_at, twin_number, twin_span};

use crate::records::PAGE;
use qsr_value::{MAX_INDEXES, MAX_TABLES};

/// How many areas of tables a store has.
const TABLES: u32 = MAX_TABLES as u32;

/// How many areas of indexes it has.
const INDEXES: u32 = MAX_INDEXES as u32;

/// How many jobs a store has.
const JOBS: u32 = 8;

/// The page at which the first slot of the catalogue begins.
const CATALOGUE_AT: u32 = 1;

/// The page behind the store head and the two slots of the catalogue.
const TABLES_AT: u32 = 5;

/// How many pages each area of a kind has, 1 to 65,536.
#[derive(Clone, Copy, Debug, PartialEq, Eq)]
pub struct Sizes {
    /// An area of a table.
    pub table: u32,
    /// An area of an index.
    pub index: u32,
    /// The output area of a job.
    pub out: u32,
    /// An image side of a job.
    pub image: u32,
    /// The spill area of a job.
    pub spill: u32,
}

/// An area of a store, by its table or index, 0 to 15, or by its job, 0 to 7, and the image by its side, 1 or 2.
#[derive(Clone, Copy, Debug, PartialEq, Eq)]
pub enum Area {
    Table(u8),
    Index(u8),
    Text(u8),
    Plan(u8),
    Out(u8),
    Image(u8, u8),
    Spill(u8),
}

/// What has a body that is replaced as a whole: the catalogue, and the head of a job, 0 to 7.
#[derive(Clone, Copy, Debug, PartialEq, Eq)]
pub enum Twin {
    Catalogue,
    Job(u8),
}

/// Where a twin begins on the disk, and how many bytes each of its two slots has.
#[derive(Clone, Copy)]
pub(crate) struct Place {
    pub(crate) at: u64,
    pub(crate) span: u64,
}

/// Where a twin stands.
pub(crate) fn place_of(sizes: &Sizes, twin: Twin) -> Place
    requires sizes { AreSizes sizes.now }
    requires twin { IsTwin twin }
    ensures at { result.at ≡ twin_at sizes.now (twin_number twin) }
    ensures span { result.span ≡ twin_span (twin_number twin) }
    ensures within { result.at + 2 * result.span ≤ 4096 * sum (parts sizes.now) }
    ensures small { result.at < 2 ^ 35 }
{
    match twin {
        Twin::Catalogue => Place {
            at: PAGE * CATALOGUE_AT as u64,
            span: 2 * PAGE,
        },
        Twin::Job(job) => Place {
            at: PAGE * job_page(sizes, job) as u64,
            span: PAGE,
        },
    }
}

/// The first page of an area.
pub fn first_page(sizes: &Sizes, area: Area) -> u32
    requires sizes { AreSizes sizes.now }
    requires area { IsArea area }
    ensures { result ≡ start_of (parts sizes.now) (part_of area) }
{
    match area {
        Area::Table(table) => table_page(sizes, table),
        Area::Index(index) => index_page(sizes, index),
        Area::Text(job) => job_page(sizes, job) + 2,
        Area::Plan(job) => job_page(sizes, job) + 3,
        Area::Out(job) => job_page(sizes, job) + 4,
        Area::Image(job, side) => image_page(sizes, job, side),
        Area::Spill(job) => job_page(sizes, job) + 4 + sizes.out + 2 * sizes.image,
    }
}

/// How many pages a store has.
pub fn layout_pages(sizes: &Sizes) -> u32
    requires { AreSizes sizes.now }
    ensures count { result ≡ sum (parts sizes.now) }
    ensures small { result < 2 ^ 23 }

    // Each page is one of exactly one part, a part ends before a later one begins, and an area is a part of its size.
    ensures each_page { (page : ℕ) → page < result → IsOfOnePart (parts sizes.now) page }
    ensures apart { (k j : ℕ) → k < j → k < length (parts sizes.now)
        → start_of (parts sizes.now) k + slice_index (parts sizes.now) k ≤ start_of (parts sizes.now) j }
    ensures areas { (area : Area) → IsArea area → slice_index (parts sizes.now) (part_of area) ≡ area_pages sizes.now area }
{
    jobs_at(sizes) + JOBS * job_pages(sizes)
}

/// The first page of a table area.
fn table_page(sizes: &Sizes, table: u8) -> u32
    requires sizes { AreSizes sizes.now }
    requires table { table < 16 }
    ensures { result ≡ start_of (parts sizes.now) (3 + table) }
{
    TABLES_AT + table as u32 * sizes.table
}

/// The first page of an index area.
fn index_page(sizes: &Sizes, index: u8) -> u32
    requires sizes { AreSizes sizes.now }
    requires index { index < 16 }
    ensures { result ≡ start_of (parts sizes.now) (19 + index) }
{
    TABLES_AT + TABLES * sizes.table + index as u32 * sizes.index
}

/// How many pages each job has.
fn job_pages(sizes: &Sizes) -> u32
    requires { AreSizes sizes.now }
    ensures { result ≡ 4 + sizes.now.out + 2 * sizes.now.image + sizes.now.spill }
{
    4 + sizes.out + 2 * sizes.image + sizes.spill
}

/// The first page of the first job.
fn jobs_at(sizes: &Sizes) -> u32
    requires { AreSizes sizes.now }
    ensures { result ≡ 5 + 16 * sizes.now.table + 16 * sizes.now.index }
{
    TABLES_AT + TABLES * sizes.table + INDEXES * sizes.index
}

/// The first page of a job.
pub(crate) fn job_page(sizes: &Sizes, job: u8) -> u32
    requires sizes { AreSizes sizes.now }
    requires job { job < 8 }
    ensures page { result ≡ start_of (parts sizes.now) (job_part job 0) }
    ensures small { result < 2 ^ 23 }
{
    jobs_at(sizes) + job as u32 * job_pages(sizes)
}

/// The first page of an image side.
fn image_page(sizes: &Sizes, job: u8, side: u8) -> u32
    requires sizes { AreSizes sizes.now }
    requires job { job < 8 }
    requires first { 1 ≤ side }
    requires second { side ≤ 2 }
    ensures { result ≡ start_of (parts sizes.now) (job_part job (4 + side)) }
{
    let first = job_page(sizes, job) + 4 + sizes.out;
    if side == 1 {
        first
    } else {
        first + sizes.image
    }
}
