//! A mark for each page.
ghost use Rattle.std.specs.Prelude.{◌≡◌, ◌+◌, ◌/◌, ◌<◌, ◌≤◌, ◌^◌, ◌||◌, ◌&&◌, ℕ, true, false, nat_le, nat_lt, length, replicate};
ghost use Rattle.mas_types.specs.Limits.{pages_most};
ghost use Rattle.ckpt_tables.specs.Shape.{first_group_page, first_job_page, first_output_page, owners_a_page};
ghost use Rattle.page_marks.specs.Marks.{group_page, groups_end_page, is_marked, job_page, marked, output_page};

use ckpt_tables::{FIRST_JOB_PAGE, JOBS_A_PAGE, OUTPUTS_A_PAGE, OWNERS_A_PAGE};
use mas_types::Config;
use mas_types::limits::PAGES_MOST;

/// How many marks there are: one for each page that a checkpoint can have.
pub const MARKS: usize = PAGES_MOST as usize;

/// The page of the header.
pub const HEADER_PAGE: usize = 0;
/// The page of the members.
pub const MEMBERS_PAGE: usize = 1;
/// The page of the nodes.
pub const NODES_PAGE: usize = 2;

/// The marks of pages, by their numbers.
#[derive(Clone, Copy)]
pub struct Marks {
    /// Whether each page has a mark.
    pub pages: [bool; MARKS],
    ghost many: { length pages ≡ pages_most },
}

impl Marks {
    /// No marks.
    pub fn none() -> Marks
        ensures { result.pages ≡ replicate pages_most false }
    {
        Marks {
            pages: [false; MARKS],
        }
    }

    /// A mark for each page.
    pub fn all() -> Marks
        ensures { result.pages ≡ replicate pages_most true }
    {
        Marks {
            pages: [true; MARKS],
        }
    }

    /// Whether a page has a mark; not beyond the last one.
    pub fn has(&self, page: u16) -> bool
        ensures { result ≡ is_marked self.now.pages page }
    {
        match self.pages.get(page as usize) {
            Some(mark) => *mark,
            None => false,
        }
    }

    /// Marks a page; none beyond the last one.
    pub fn put(&mut self, page: usize)
        ensures { self.new.pages ≡ marked page self.old.pages }
    {
        if page < MARKS {
            self.pages[page] = true;
        }
    }

    // Marks the pages from one on, up to another, without it.
    fn put_from(&mut self, first: usize, end: usize)
        ensures { (p : ℕ) → p < pages_most → is_marked self.new.pages p
            ≡ (is_marked self.old.pages p || (nat_le first p && nat_lt p end)) }
    {
        for page in 0..MARKS {
            self.pages[page] = self.pages[page] | is_between(first, page, end);
        }
    }

    /// Marks the page of a slot of jobs.
    pub fn put_job(&mut self, at: usize)
        ensures { self.new.pages ≡ marked (job_page at) self.old.pages }
    {
        self.put(FIRST_JOB_PAGE as usize + at / JOBS_A_PAGE);
    }

    /// Marks the page of a slot of outputs.
    pub fn put_output(&mut self, config: &Config, at: usize)
        ensures { self.new.pages ≡ marked (output_page config.now at) self.old.pages }
    {
        self.put(first_output(config) + at / OUTPUTS_A_PAGE);
    }

    /// Marks all pages of jobs.
    pub fn put_jobs(&mut self, config: &Config)
        ensures { (p : ℕ) → p < pages_most → is_marked self.new.pages p
            ≡ (is_marked self.old.pages p || (nat_le first_job_page p && nat_lt p (first_output_page config.now))) }
    {
        self.put_from(FIRST_JOB_PAGE as usize, first_output(config));
    }

    /// Marks all pages of outputs.
    pub fn put_outputs(&mut self, config: &Config)
        ensures { (p : ℕ) → p < pages_most → is_marked self.new.pages p ≡ (is_marked self.old.pages p
            || (nat_le (first_output_page config.now) p && nat_lt p (first_group_page config.now))) }
    {
        self.put_from(first_output(config), first_group(config));
    }

    /// Marks all pages of groups.
    pub fn put_groups(&mut self, config: &Config)
        ensures { (p : ℕ) → p < pages_most → is_marked self.new.pages p
            ≡ (is_marked self.old.pages p || nat_le (first_group_page config.now) p) }
    {
        self.put_from(first_group(config), MARKS);
    }

    /// Marks the pages of the groups from the first on, up to the end, without it.
    pub fn put_groups_between(&mut self, config: &Config, first: usize, end: usize)
        ensures { (p : ℕ) → p < pages_most → is_marked self.new.pages p ≡ (is_marked self.old.pages p
            || (nat_le (group_page config.now first) p && nat_lt p (groups_end_page config.now end))) }
    {
        let groups = first_group(config);
        self.put_from(groups + first / OWNERS_A_PAGE, groups + pages_to(end));
    }
}

// Whether a page is one of those from the first on, up to the end, without it.
fn is_between(first: usize, page: usize, end: usize) -> bool
    ensures { result ≡ (nat_le first page && nat_lt page end) }
{
    first <= page && page < end
}

// The first page of outputs, whatever the configuration is.
fn first_output(config: &Config) -> usize
    ensures value { result ≡ first_output_page config.now }
    ensures few { result < 2 ^ 16 }
{
    FIRST_JOB_PAGE as usize + config.jobs as usize / JOBS_A_PAGE
}

// The first page of groups.
fn first_group(config: &Config) -> usize
    ensures value { result ≡ first_group_page config.now }
    ensures few { result < 2 ^ 17 }
{
    first_output(config) + config.outputs as usize / OUTPUTS_A_PAGE
}

// How many pages the groups up to the end take.
fn pages_to(end: usize) -> usize
    ensures value { result ≡ (end + 511) / owners_a_page }
    ensures few { result < 2 ^ 56 }
{
    end / OWNERS_A_PAGE + (end % OWNERS_A_PAGE + 511) / OWNERS_A_PAGE
}
