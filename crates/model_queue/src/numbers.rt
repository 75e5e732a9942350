//! The number of a new job.
ghost use Rattle.std.specs.Prelude.{◌≡◌, ◌==◌, ◌≤◌};
ghost use Rattle.std.specs.List.{list_any};
ghost use Rattle.mas_types.specs.Number.{after as after_lem, is_number_used as is_number_used_lem, next_number as next_number_lem};

use mas_types::{Job, JobNo, List, NUMBER_MOST};

fn is_number_used(jobs: &List<Job>, number: u32) -> bool
    ensures { result ≡ is_number_used_lem jobs.now number }
{
    jobs.as_slice().iter().any(|job| job.number.0 == number)
}

fn after(number: u32) -> u32
    ensures { result ≡ after_lem number }
{
    if number < NUMBER_MOST { number + 1 } else { 1 }
}

/// The first number after the last one that no job has.
pub fn next_number(jobs: &List<Job>, last: JobNo) -> JobNo
    ensures { result ≡ next_number_lem jobs.now last }
{
    let mut number = after(last.0);
    let mut more = jobs.len();
    while more > 0 && is_number_used(jobs, number) {
        number = after(number);
        more -= 1;
    }
    JobNo(number)
}
