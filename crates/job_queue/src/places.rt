//! Jobs by their numbers, for many look-ups.
ghost use Rattle.std.specs.Prelude.{◌≡◌, ◌<◌, ◌%◌, ℕ, List, None, Some, find, length, slice_get, slice_index};
ghost use Rattle.mas_types.specs.Ids.{same_number};
ghost use Rattle.queue_slots.specs.Listed.{listed};
ghost use Rattle.job_queue.specs.Jobs.{order_of};
ghost use Rattle.job_queue.specs.Places.{ArePlaces, numbered, taken as taken_lem};

use crate::finding::find_job;
use lay_bytes::JobRec;
use mas_types::JobNo;

/// How many places there are: jobs of which the numbers differ by a multiple of it share one.
const PLACES: usize = 4096;

/// At a place that several jobs share.
const SEVERAL: u16 = 65535;

/// The jobs of slots by their numbers.
#[derive(Drop)]
pub struct JobsByNumber<'a> {
    /// The slots.
    pub jobs: &'a [Option<JobRec>],
    /// By a hash of the number, the slot of its job and one more, 0 for none.
    places: [u16; 4096],
    ghost placed: { ArePlaces jobs.now (length jobs.now) places },
}

/// The jobs of these slots by their numbers.
pub fn by_number(jobs: &[Option<JobRec>]) -> JobsByNumber<'_>
    ensures { result.jobs.now ≡ jobs.now }
{
    JobsByNumber {
        jobs,
        places: places_of(jobs),
    }
}

/// For each place one more than the only slot that has it, 0 where none has it, and `SEVERAL` where several have.
fn places_of(jobs: &[Option<JobRec>]) -> [u16; 4096]
    ensures { ArePlaces jobs.now (length jobs.now) result }
{
    let mut places = [0u16; 4096];
    for (at, slot) in jobs.iter().enumerate() {
        if let Some(job) = slot {
            let place = job.number.0 as usize % PLACES;
            places[place] = taken(places[place], at);
        }
    }
    places
}

fn taken(place: u16, at: usize) -> u16
    ensures { result ≡ taken_lem place at }
{
    if place == 0 && at < SEVERAL as usize - 1 {
        at as u16 + 1
    } else {
        SEVERAL
    }
}

fn walked(jobs: &[Option<JobRec>], job: JobNo) -> Option<JobRec>
    ensures { result ≡ find (λ r. same_number r.number job) (listed order_of jobs.now) }
{
    match find_job(jobs, job) {
        Some(found) => Some(found.item),
        None => None,
    }
}

fn only_at(jobs: &[Option<JobRec>], at: usize, job: JobNo) -> Option<JobRec>
    ensures { result ≡ numbered job (slice_get jobs.now at) }
{
    match jobs.get(at) {
        Some(Some(item)) => {
            if item.number.0 == job.0 {
                Some(*item)
            } else {
                None
            }
        }
        _ => None,
    }
}

/// The first job with a number, by ascending order; none exactly where none has it.
pub fn job_numbered(by_number: &JobsByNumber<'_>, job: JobNo) -> Option<JobRec>
    ensures { result ≡ find (λ r. same_number r.number job) (listed order_of by_number.now.jobs.now) }
{
    let place = by_number.places[job.0 as usize % PLACES];
    if place == 0 {
        return None;
    }
    if place == SEVERAL {
        return walked(by_number.jobs, job);
    }
    only_at(by_number.jobs, place as usize - 1, job)
}
